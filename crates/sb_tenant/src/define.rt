//! The commands that define what has a name, by their variants.
ghost use Rattle.std.specs.Prelude.{◌≡◌, Some};
ghost use Rattle.sb_syntax.specs.Text.{command_of};
ghost use Rattle.sb_syntax.specs.Views.{definition as tree_of};
ghost use Rattle.sb_tenant.specs.Defining.{Defines, HasFewActions, IsAtRest, Stands};

use crate::store::Store;
use sb_catalog::MemberChange;
use sb_index::RuleIndex;
use sb_syntax::Definition;
use sb_value::Refusal;
use std::alloc::Global;

impl Store {
    /// Does the command of a line that defines something, or is refused.
    pub(crate) fn define(
        &mut self,
        alloc: Global,
        index: &mut RuleIndex,
        definition: Definition,
        line: &[u8],
    ) -> Result<(), Refusal>
        requires rest { IsAtRest self.old.phases }
        requires stand { Stands self.old index.old }
        requires few { HasFewActions (tree_of definition) }
        requires spelled { command_of line.now ≡ Some (tree_of definition) }
        ensures { Defines self.old self.new index.old index.new (tree_of definition) result }
    {
        match definition {
            Definition::CreateTable(name, columns) => self.create_table(name, columns),
            Definition::DropTable(name) => self.drop_table(&name),
            Definition::CreateRule(rule) => self.create_rule(alloc, index, &rule, line),
            Definition::AlterRule(rule) => self.alter_rule(alloc, &rule, line),
            Definition::DropRule(name) => self.drop_rule(index, &name),
            Definition::ActivateRule(name) => self.activate_rule(index, &name),
            Definition::DeactivateRule(name) => self.deactivate_rule(index, &name),
            Definition::CreateRuleset(name) => self.create_ruleset(name),
            Definition::DropRuleset(name) => self.drop_ruleset(&name),
            Definition::AddRules(name, rules) => {
                self.change_members(alloc, &name, MemberChange::Added, rules.as_slice())
            }
            Definition::DelRules(name, rules) => {
                self.change_members(alloc, &name, MemberChange::Taken, rules.as_slice())
            }
        }
    }
}
