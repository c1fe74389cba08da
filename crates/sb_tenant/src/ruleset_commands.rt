//! The commands that define rulesets.
ghost use Rattle.sb_syntax.specs.Tree as text;
ghost use Rattle.sb_tenant.specs.Defining.{DefinesAlone, IsAtRest, member_command};

use crate::store::Store;
use sb_catalog::MemberChange;
use sb_value::{Name, Refusal};
use std::alloc::Global;

impl Store {
    /// Adds an empty ruleset, the last.
    pub(crate) fn create_ruleset(&mut self, name: Name) -> Result<(), Refusal>
        requires { IsAtRest self.old.phases }
        ensures { DefinesAlone self.old self.new (text.create_ruleset name) result }
    {
        self.definitions.rulesets.create(name)
    }

    /// Drops a ruleset; its rules stay.
    pub(crate) fn drop_ruleset(&mut self, name: &Name) -> Result<(), Refusal>
        requires { IsAtRest self.old.phases }
        ensures { DefinesAlone self.old self.new (text.drop_ruleset name.now) result }
    {
        self.definitions.rulesets.drop_set(name)
    }

    /// Puts rules into a ruleset, or takes them out of it.
    pub(crate) fn change_members(
        &mut self,
        alloc: Global,
        name: &Name,
        change: MemberChange,
        rules: &[Name],
    ) -> Result<(), Refusal>
        requires { IsAtRest self.old.phases }
        ensures { DefinesAlone self.old self.new (member_command change name.now rules.now) result }
    {
        self.definitions.change_members(alloc, name, change, rules)
    }
}
