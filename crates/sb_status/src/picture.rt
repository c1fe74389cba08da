//! The picture of a tenant's rules.

use crate::layers::Layout;
use crate::markup::Markup;
use crate::node_box::{Curve, HEIGHT, LETTER, NodeBox};
use crate::nodes::Nodes;
use crate::page::Page;
use crate::view::{RuleView, TenantView};
use std::alloc::{AllocError, Global};

/// The most arrows that are drawn.
const MOST_ARROWS: u64 = 4096;

/// A picture that is being drawn.
#[derive(Drop)]
struct Drawing<'d, 'v> {
    page: &'d mut Page<'v>,
    layout: &'d Layout,
    width: u64,
    arrows: u64,
}

/// Draws the rules of a tenant, with an arrow from each to those that it may trigger, and to those that it precedes.
pub(crate) fn draw<'v>(
    alloc: Global,
    page: &mut Page<'v>,
    view: &'v TenantView,
) -> Result<(), AllocError> {
    let layout = Layout::of(alloc, view.graph.triggers.as_slice())?;
    let width = width_of(view.rules.as_slice());
    page.mark(Markup::PictureHead)?;
    begin(page, &layout, width)?;
    let mut drawing = Drawing {
        page,
        layout: &layout,
        width,
        arrows: 0,
    };
    drawing.all_arrows(view.graph.precedes.as_slice(), true)?;
    drawing.all_arrows(view.graph.triggers.as_slice(), false)?;
    drawing.all_rules(view.rules.as_slice())?;
    drawing.end()
}

/// The width of a box that has room for the longest name.
fn width_of(rules: &[RuleView]) -> u64 {
    let mut longest = 4;
    for rule in rules {
        longest = longest.max(rule.name.as_slice().len());
    }
    (longest as u64).saturating_add(3).saturating_mul(LETTER)
}

/// The head of the drawing, whose size is that of all its layers and rows.
fn begin(page: &mut Page<'_>, layout: &Layout, width: u64) -> Result<(), AllocError> {
    let mut right: u64 = 0;
    let mut bottom: u64 = 0;
    for place in layout.places.as_slice() {
        let end = NodeBox::of(*place, width).end();
        right = right.max(end.0);
        bottom = bottom.max(end.1);
    }
    page.counts(&[
        (Markup::SvgWidth, right),
        (Markup::SvgHeight, bottom),
        (Markup::SvgBox, right),
        (Markup::Blank, bottom),
    ])?;
    page.mark(Markup::SvgHead)
}

impl<'d, 'v> Drawing<'d, 'v> {
    /// Draws all arrows of a kind, as long as there are not too many.
    fn all_arrows(&mut self, arrows: &[Nodes], is_order: bool) -> Result<(), AllocError> {
        for (from, nodes) in arrows.iter().enumerate() {
            self.arrows_from(from, nodes, is_order)?;
        }
        Ok(())
    }

    fn arrows_from(
        &mut self,
        from: usize,
        nodes: &Nodes,
        is_order: bool,
    ) -> Result<(), AllocError> {
        for to in 0..self.layout.places.len() {
            if nodes.has(to) {
                self.arrow(from, to, is_order)?;
            }
        }
        Ok(())
    }

    fn arrow(&mut self, from: usize, to: usize, is_order: bool) -> Result<(), AllocError> {
        self.arrows = self.arrows.saturating_add(1);
        if self.arrows > MOST_ARROWS {
            return Ok(());
        }
        let places = self.layout.places.as_slice();
        let (Some(start), Some(end)) = (places.get(from), places.get(to)) else {
            return Ok(());
        };
        let curve = Curve::between(
            NodeBox::of(*start, self.width),
            NodeBox::of(*end, self.width),
        );
        if is_order {
            return self.curve(Markup::OrderArrow, curve.raised());
        }
        let mark = if self.layout.reaches(to, from) {
            Markup::CycleArrow
        } else {
            Markup::Arrow
        };
        self.curve(mark, curve)
    }

    fn curve(&mut self, mark: Markup, curve: Curve) -> Result<(), AllocError> {
        self.point(mark, curve.from)?;
        self.point(Markup::CurveBy, curve.first)?;
        self.point(Markup::Blank, curve.second)?;
        self.point(Markup::Blank, curve.to)?;
        self.page.mark(Markup::ArrowEnd)
    }

    fn point(&mut self, mark: Markup, point: (u64, u64)) -> Result<(), AllocError> {
        self.page.count(mark, point.0)?;
        self.page.count(Markup::Blank, point.1)
    }

    fn all_rules(&mut self, rules: &'v [RuleView]) -> Result<(), AllocError> {
        for (node, rule) in rules.iter().enumerate() {
            if let Some(place) = self.layout.places.as_slice().get(node) {
                self.rule(NodeBox::of(*place, self.width), rule)?;
            }
        }
        Ok(())
    }

    /// The box of a rule with its name, and a word where it is on a cycle.
    fn rule(&mut self, spot: NodeBox, rule: &'v RuleView) -> Result<(), AllocError> {
        let mark = match (spot.is_on_cycle(), rule.is_active) {
            (true, true) => Markup::CycleBox,
            (true, false) => Markup::InactiveCycleBox,
            (false, true) => Markup::RuleBox,
            (false, false) => Markup::InactiveBox,
        };
        let (left, top) = spot.corner();
        let name = spot.name();
        self.page.counts(&[
            (mark, left),
            (Markup::BoxTop, top),
            (Markup::BoxWidth, self.width),
            (Markup::BoxHeight, HEIGHT),
            (Markup::NameAt, name.0),
            (Markup::TextTop, name.1),
        ])?;
        self.page.mark(Markup::TextBegin)?;
        self.page.text(rule.name.as_slice())?;
        self.page.mark(Markup::TextEnd)?;
        if spot.is_on_cycle() {
            let word = spot.word();
            self.page.count(Markup::WordAt, word.0)?;
            self.page.count(Markup::TextTop, word.1)?;
            self.page.mark(Markup::CycleWord)?;
        }
        Ok(())
    }

    /// Ends the drawing, and tells of arrows that it lacks.
    fn end(self) -> Result<(), AllocError> {
        let Drawing { page, arrows, .. } = self;
        page.mark(Markup::SvgEnd)?;
        if arrows > MOST_ARROWS {
            page.count(Markup::LeftOut, arrows.saturating_sub(MOST_ARROWS))?;
            page.mark(Markup::LeftOutEnd)?;
        }
        Ok(())
    }
}
