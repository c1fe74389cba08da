//! Laws of the definitions, each the contract of a function that does nothing.
ghost use Rattle.std.specs.Prelude.{◌≡◌, ◌≤◌, ℕ, List, Some, length};
ghost use Rattle.sb_syntax.specs.Text.{command_of};
ghost use Rattle.sb_syntax.specs.Tree.{Action, Query, RuleText, alter_rule, create_rule};
ghost use Rattle.sb_catalog.specs.ClauseTexts.{AreClauses, IsActionsText, IsConditionText, IsNameText, alone, create_line, if_line, new_actions, new_condition, then_line};
ghost use Rattle.sb_catalog.specs.Rules.{IsLeastFree, least_free};
ghost use Rattle.sb_catalog.specs.declared.clauses.RuleClauses.{RuleClauses};

/// The least free number is free, all below it are taken, and there is no other such number.
pub fn least_free_is_least()
    ensures least { (used : List ℕ) → IsLeastFree used (least_free used) }
    ensures few { (used : List ℕ) → least_free used ≤ length used }
    ensures only { (used : List ℕ) (n : ℕ) → IsLeastFree used n → least_free used ≡ n }
{}

/// The line that is made of a rule's clauses creates that rule, under whatever name.
pub fn clauses_make_rules()
    ensures { (name : List ℕ) (clauses : RuleClauses) (r : RuleText) → IsNameText name → AreClauses clauses r →
        command_of (create_line name clauses) ≡ Some (create_rule (alone name r)) }
{}

/// A clause in a line that alters a rule is read as the condition or the actions that it was cut out as.
pub fn clauses_alter_rules()
    ensures condition { (name text : List ℕ) (q : Query) → IsNameText name → IsConditionText text q →
        command_of (if_line name text) ≡ Some (alter_rule (new_condition name q)) }
    ensures actions { (name text : List ℕ) (actions : List Action) → IsNameText name → IsActionsText text actions →
        command_of (then_line name text) ≡ Some (alter_rule (new_actions name actions)) }
{}
