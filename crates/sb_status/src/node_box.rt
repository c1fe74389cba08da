//! Where the boxes of a picture are, and the ways between them.

use crate::layers::NodePlace;

/// The sizes of the picture, in pixels.
const MARGIN: u64 = 40;

const GAP: u64 = 90;

const ROW: u64 = 56;

pub(crate) const HEIGHT: u64 = 30;

pub(crate) const LETTER: u64 = 8;

/// How far an arrow goes straight on before it bends.
const BEND: u64 = 40;

/// How far an arrow of the order goes above one of a trigger.
const RISE: u64 = 8;

/// Where a node's box is.
#[derive(Clone, Copy)]
pub(crate) struct NodeBox {
    place: NodePlace,
    left: u64,
    right: u64,
    top: u64,
    middle: u64,
}

impl NodeBox {
    /// Where a box of this width is.
    pub(crate) fn of(place: NodePlace, width: u64) -> NodeBox {
        let left = MARGIN.saturating_add(place.layer.saturating_mul(width.saturating_add(GAP)));
        let top = MARGIN.saturating_add(place.row.saturating_mul(ROW));
        NodeBox {
            place,
            left,
            right: left.saturating_add(width),
            top,
            middle: top.saturating_add(HEIGHT / 2),
        }
    }

    pub(crate) fn is_on_cycle(self) -> bool {
        self.place.is_on_cycle
    }

    /// Its left upper corner.
    pub(crate) fn corner(self) -> (u64, u64) {
        (self.left, self.top)
    }

    /// Where the next layer and the next row begin.
    pub(crate) fn end(self) -> (u64, u64) {
        (self.right.saturating_add(GAP), self.top.saturating_add(ROW))
    }

    /// Where its name begins.
    pub(crate) fn name(self) -> (u64, u64) {
        (
            self.left.saturating_add(LETTER),
            self.middle.saturating_add(5),
        )
    }

    /// Where a word above it begins.
    pub(crate) fn word(self) -> (u64, u64) {
        (self.left.saturating_add(LETTER), self.top.saturating_sub(4))
    }
}

/// From where to where an arrow goes, and where its curve bends.
#[derive(Clone, Copy)]
pub(crate) struct Curve {
    pub(crate) from: (u64, u64),
    pub(crate) first: (u64, u64),
    pub(crate) second: (u64, u64),
    pub(crate) to: (u64, u64),
}

impl Curve {
    /// The way from one box to another.
    pub(crate) fn between(from: NodeBox, to: NodeBox) -> Curve {
        let layers = to.place.layer.saturating_sub(from.place.layer);
        if layers > 0 {
            // where it passes other layers it goes below their boxes
            let fall = if layers > 1 { BEND } else { 0 };
            return Curve::forward(from, to, fall);
        }
        if from.place.layer == to.place.layer {
            let is_loop = from.place.row == to.place.row;
            let rise = if is_loop { HEIGHT } else { 0 };
            return Curve::sideways(from, to, rise);
        }
        Curve::backward(from, to)
    }

    /// The same way a little above, so that it is seen beside another one.
    pub(crate) fn raised(self) -> Curve {
        let above = |point: (u64, u64)| (point.0, point.1.saturating_sub(RISE));
        Curve {
            from: above(self.from),
            first: above(self.first),
            second: above(self.second),
            to: above(self.to),
        }
    }

    /// To a layer behind.
    fn forward(from: NodeBox, to: NodeBox, fall: u64) -> Curve {
        Curve {
            from: (from.right, from.middle),
            first: (
                from.right.saturating_add(BEND),
                from.middle.saturating_add(fall),
            ),
            second: (to.left.saturating_sub(BEND), to.middle.saturating_add(fall)),
            to: (to.left, to.middle),
        }
    }

    /// Within a layer.
    fn sideways(from: NodeBox, to: NodeBox, rise: u64) -> Curve {
        Curve {
            from: (from.right, from.middle.saturating_sub(rise / 4)),
            first: (
                from.right.saturating_add(BEND),
                from.middle.saturating_sub(rise),
            ),
            second: (
                to.right.saturating_add(BEND),
                to.middle.saturating_add(rise),
            ),
            to: (to.right, to.middle.saturating_add(rise / 4)),
        }
    }

    /// To a layer before.
    fn backward(from: NodeBox, to: NodeBox) -> Curve {
        Curve {
            from: (from.left, from.middle),
            first: (from.left.saturating_sub(BEND), from.middle),
            second: (to.right.saturating_add(BEND), to.middle),
            to: (to.right, to.middle),
        }
    }
}
