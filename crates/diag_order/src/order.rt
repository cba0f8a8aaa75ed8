// The order of lines.
ghost use Rattle.std.specs.Prelude.{◌≡◌};
ghost use Rattle.std.specs.Cmp.{partial_order_from_total, partial_equiv_from_equiv, eq_by_cmp_equiv};
ghost use Rattle.std.specs.Cmp.Rules.{comparing};
ghost use Rattle.std.specs.Ordering.{as_partial_cmp};
ghost use Rattle.std.proofs.Common.{rules};
ghost use Rattle.diag_order.specs.Order.{line_cmp, same_line};
ghost use Rattle.diag_order.specs.LineOrder.{line_cmp_total};

use crate::line::Line;
use std::cmp::Ordering;

impl PartialEq for Line {
    ghost eq = { same_line };

    ghost laws = { partial_equiv_from_equiv (eq_by_cmp_equiv line_cmp_total) };

    fn eq(&self, other: &Line) -> bool {
        self.cmp(other).is_eq()
    }
}

impl Eq for Line {
    ghost laws = { eq_by_cmp_equiv line_cmp_total };
}

/// Lines are ordered by path, line, column, code and text.
impl Ord for Line {
    ghost cmp = { line_cmp };

    ghost total = { line_cmp_total };

    ghost matches_partial_cmp = { Prim.search (comparing, rules) };

    ghost matches_eq = { Prim.search (comparing, rules) };

    fn cmp(&self, other: &Line) -> Ordering {
        self.path
            .cmp(&other.path)
            .then(self.line.cmp(&other.line))
            .then(self.col.cmp(&other.col))
            .then(
                self.code
                    .name()
                    .as_bytes()
                    .cmp(other.code.name().as_bytes()),
            )
            .then(self.text.as_slice().cmp(other.text.as_slice()))
    }
}

impl PartialOrd for Line {
    ghost partial_cmp = { as_partial_cmp line_cmp };

    ghost laws = { partial_order_from_total line_cmp_total };

    fn partial_cmp(&self, other: &Line) -> Option<Ordering> {
        Some(self.cmp(other))
    }
}
