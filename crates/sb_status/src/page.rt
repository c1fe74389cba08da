//! A page that is being written.
ghost use Rattle.std.specs.Prelude.{◌≡◌, ◌++◌, ◌∷◌, [], IfOk, OnOk};
ghost use Rattle.sb_status.specs.Pages.{rendered};
ghost use Rattle.sb_status.specs.TenantPages.{counted};
ghost use Rattle.sb_status.specs.declared.fragment.Fragment.TheVariants as piece;

use crate::fragment::{Fragment, render};
use crate::markup::Markup;
use crate::text::Escaping;
use std::alloc::{AllocError, Global};

/// The pieces so far.
pub(crate) struct Page<'a> {
    pieces: Vec<Fragment<'a>>,
}

impl<'a> Drop for Page<'a> {
    fn drop(self) {
        let Self { pieces: _ } = self;
    }
}

impl<'a> Page<'a> {
    pub(crate) fn new(alloc: Global) -> Page<'a>
        ensures { result.pieces.items ≡ [] }
    {
        Page {
            pieces: Vec::new(alloc),
        }
    }

    pub(crate) fn mark(&mut self, mark: Markup) -> Result<(), AllocError>
        ensures { OnOk result (self.new.pieces.items ≡ self.old.pieces.items ++ piece.Markup mark ∷ []) }
    {
        self.pieces.push(Fragment::Markup(mark))?;
        Ok(())
    }

    pub(crate) fn text(&mut self, text: &'a [u8]) -> Result<(), AllocError> {
        self.pieces.push(Fragment::Text(text))?;
        Ok(())
    }

    pub(crate) fn number(&mut self, number: u64) -> Result<(), AllocError>
        ensures { OnOk result (self.new.pieces.items ≡ self.old.pieces.items ++ piece.Number number ∷ []) }
    {
        self.pieces.push(Fragment::Number(number))?;
        Ok(())
    }

    /// A mark and a number behind it.
    pub(crate) fn count(&mut self, mark: Markup, number: u64) -> Result<(), AllocError>
        ensures { OnOk result (self.new.pieces.items ≡ self.old.pieces.items ++ piece.Markup mark ∷ piece.Number number ∷ []) }
    {
        self.mark(mark)?;
        self.number(number)
    }

    /// Marks, each with a number behind it.
    pub(crate) fn counts(&mut self, counts: &[(Markup, u64)]) -> Result<(), AllocError>
        ensures { OnOk result (self.new.pieces.items ≡ self.old.pieces.items ++ counted counts.now) }
    {
        for (mark, number) in counts {
            self.count(*mark, *number)?;
        }
        Ok(())
    }

    /// A text or a number, and a count of it, with marks before, between and behind the two.
    pub(crate) fn pair(
        &mut self,
        marks: [Markup; 3],
        counted: Fragment<'a>,
        count: u64,
    ) -> Result<(), AllocError> {
        let [before, between, behind] = marks;
        self.mark(before)?;
        self.pieces.push(counted)?;
        self.count(between, count)?;
        self.mark(behind)
    }

    /// Cells of a row, each with a number.
    pub(crate) fn cells(&mut self, numbers: &[u64]) -> Result<(), AllocError> {
        for number in numbers {
            self.count(Markup::NumberCell, *number)?;
        }
        Ok(())
    }

    /// The pieces of another page, behind those so far.
    pub(crate) fn append(&mut self, other: Page<'a>) -> Result<(), AllocError>
        ensures { OnOk result (self.new.pieces.items ≡ self.old.pieces.items ++ other.entry.pieces.items) }
    {
        let Page { mut pieces } = other;
        self.pieces.append(&mut pieces)?;
        Ok(())
    }

    /// The bytes of all pieces.
    pub(crate) fn render(&self, alloc: Global, escaping: Escaping) -> Result<Vec<u8>, AllocError>
        ensures { IfOk result (λ page. page.items ≡ rendered escaping self.now.pieces.items) }
    {
        render(alloc, escaping, self.pieces.as_slice())
    }
}
