//! The sources that queries and statements mention, shown one by one.
ghost use Rattle.std.specs.Prelude.{◌≡◌, OnOk, fold};
ghost use Rattle.sb_check.specs.Mentions.{sources_of, operand_sources, query_sources, assignment_sources, mentioned};
ghost use Rattle.sb_check.specs.declared.tree.Source.{Source as Shown};

use crate::tree::{
    Assignment, Condition, ConditionNode, Operand, OperandNode, Query, Source, Statement,
};

/// One to whom sources are shown.
pub trait SourceVisitor {
    /// Why it won't be shown more.
    type Stop;

    /// The visit after a source.
    ghost after: { Self → Shown → Self };

    /// Shows it a source.
    fn visit(&mut self, source: Source) -> Result<(), Self::Stop>
        ensures { OnOk result (self.new ≡ after self.old source) };
}

/// The sources of a statement, in order of mention. Error: what the visitor stops with.
#[tactic(auto, using(crate::proofs::Shown::shown_both))]
pub fn visit_statement<V: SourceVisitor>(
    statement: &Statement,
    visitor: &mut V,
) -> Result<(), V::Stop>
    ensures { OnOk result (visitor.new ≡ fold V.after visitor.old (mentioned statement.now)) }
{
    match statement {
        Statement::InsertRows(_, _) => Ok(()),
        Statement::InsertQuery(_, query) => visit_query(query, visitor),
        Statement::Delete(_, condition) => visit_condition(condition, visitor),
        Statement::Update(_, assignments, condition) => {
            visit_assignments(assignments.as_slice(), visitor)?;
            visit_condition(condition, visitor)
        }
    }
}

#[tactic(auto, using(crate::proofs::Shown::shown_next))]
fn visit_assignments<V: SourceVisitor>(
    assignments: &[Assignment],
    visitor: &mut V,
) -> Result<(), V::Stop>
    ensures { OnOk result (visitor.new ≡ fold V.after visitor.old (assignment_sources assignments.now)) }
{
    for assignment in assignments {
        visit_operand(&assignment.operand, visitor)?;
    }
    Ok(())
}

fn visit_sources<V: SourceVisitor>(sources: &[Source], visitor: &mut V) -> Result<(), V::Stop>
    ensures { OnOk result (visitor.new ≡ fold V.after visitor.old sources.now) }
{
    for source in sources {
        visitor.visit(*source)?;
    }
    Ok(())
}

/// The sources of a query, in order of mention. Error: what the visitor stops with.
#[cycle(visit)]
#[tactic(auto, using(crate::proofs::Shown::shown_both))]
pub fn visit_query<V: SourceVisitor>(query: &Query, visitor: &mut V) -> Result<(), V::Stop>
    ensures { OnOk result (visitor.new ≡ fold V.after visitor.old (query_sources query.now)) }
{
    visit_sources(query.sources.as_slice(), visitor)?;
    visit_condition(&query.condition, visitor)
}

#[cycle(visit)]
fn visit_operand<V: SourceVisitor>(operand: &Operand, visitor: &mut V) -> Result<(), V::Stop>
    ensures { OnOk result (visitor.new ≡ fold V.after visitor.old (operand_sources operand.now)) }
{
    match &operand.node {
        OperandNode::Expression(_) => Ok(()),
        OperandNode::ScalarSubquery(query) => visit_query(query, visitor),
    }
}

#[cycle(visit)]
#[tactic(auto, using(crate::proofs::Shown::shown_both))]
fn visit_condition<V: SourceVisitor>(condition: &Condition, visitor: &mut V) -> Result<(), V::Stop>
    ensures { OnOk result (visitor.new ≡ fold V.after visitor.old (sources_of condition.now)) }
{
    match &condition.node {
        ConditionNode::Always => Ok(()),
        ConditionNode::Disjunction(a, b) => {
            visit_condition(a, visitor)?;
            visit_condition(b, visitor)
        }
        ConditionNode::Conjunction(a, b) => {
            visit_condition(a, visitor)?;
            visit_condition(b, visitor)
        }
        ConditionNode::Negation(a) => visit_condition(a, visitor),
        ConditionNode::Compare(_, _, b) => visit_operand(b, visitor),
        ConditionNode::In(_, query) => visit_query(query, visitor),
        ConditionNode::Exists(query) => visit_query(query, visitor),
    }
}
