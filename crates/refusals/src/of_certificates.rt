//! The lines of refused work and certificates.
ghost use Rattle.std.specs.Prelude.{◌≡◌, ◌≤◌, ◌++◌, length};
ghost use Rattle.std.specs.Option.{option_map};
ghost use Rattle.refusals.specs.Lines.{cert_text, names_of, number_field, pair_text, reject_text};

use crate::line::Line;
use check_answers::Reject;
use price_certificate::CertFault;
use spares_input::{Frame, PartId, SiteId};

impl Line {
    /// Appends the kind of a fault, and a count.
    pub(crate) fn put_count(&mut self, head: &'static [u8], count: u64)
        requires old { length self.old ≤ 6 }
        requires head { length head.now ≤ 24 }
        ensures text { self.new ≡ self.old ++ (head.now ++ number_field count) }
        ensures short { length self.new ≤ 159 }
    {
        self.put(head);
        self.put_wide(u128::from(count));
    }

    /// Appends the kind of a fault, and two wide numbers.
    fn put_two(&mut self, head: &'static [u8], first: u128, second: u128)
        requires old { length self.old ≤ 6 }
        requires head { length head.now ≤ 24 }
        ensures text { self.new ≡ self.old ++ (head.now ++ (number_field first ++ number_field second)) }
        ensures short { length self.new ≤ 159 }
    {
        self.put(head);
        self.put_wide(first);
        self.put_wide(second);
    }

    /// Appends the kind of a fault at a pair, and the pair's stock.
    fn put_stock_at(
        &mut self,
        head: &'static [u8],
        frame: Option<&Frame>,
        part: PartId,
        site: SiteId,
        stock: u8,
    )
        requires old { length self.old ≤ 6 }
        requires head { length head.now ≤ 28 }
        ensures text { self.new ≡ self.old ++ (head.now
            ++ (pair_text (names_of (option_map (λ f. f.now) frame.entry)) part site ++ number_field stock)) }
        ensures short { length self.new ≤ 159 }
    {
        self.put(head);
        self.put_pair(frame, part, site);
        self.put_number(u32::from(stock));
    }

    /// Appends the reason why bytes are no certificate.
    pub(crate) fn put_certificate(&mut self, fault: CertFault)
        requires { length self.old ≤ 6 }
        ensures text { self.new ≡ self.old ++ cert_text fault }
        ensures short { length self.new ≤ 159 }
    {
        match fault {
            CertFault::BadLine(line) => self.put_at_row(b"bad-line", line),
            CertFault::BadCase(_) => self.put(b"bad-case"),
        }
    }

    /// Appends a family with its claimed floor, and its value.
    fn put_floor(&mut self, head: &'static [u8], family: u32, floor: u128, least: u128)
        requires old { length self.old ≤ 6 }
        requires head { length head.now ≤ 24 }
        ensures text { self.new ≡ self.old ++ (head.now
            ++ (number_field family ++ (number_field floor ++ number_field least))) }
        ensures short { length self.new ≤ 159 }
    {
        self.put(head);
        self.put_number(family);
        self.put_wide(floor);
        self.put_wide(least);
    }

    /// Appends a leaf of a family with the family's claimed floor, and the leaf's value.
    fn put_leaf(&mut self, head: &'static [u8], family: u32, leaf: u32, floor: u128, least: u128)
        requires old { length self.old ≤ 6 }
        requires head { length head.now ≤ 24 }
        ensures text { self.new ≡ self.old ++ (head.now
            ++ (number_field family ++ (number_field leaf ++ (number_field floor ++ number_field least)))) }
        ensures short { length self.new ≤ 159 }
    {
        self.put(head);
        self.put_number(family);
        self.put_number(leaf);
        self.put_wide(floor);
        self.put_wide(least);
    }

    /// Appends the first rule that a certificate breaks.
    pub(crate) fn put_reject(&mut self, frame: Option<&Frame>, reject: Reject)
        requires { length self.old ≤ 6 }
        ensures text { self.new ≡ self.old ++ reject_text (names_of (option_map (λ f. f.now) frame.entry)) reject }
        ensures short { length self.new ≤ 159 }
    {
        match reject {
            Reject::Rate(_) => self.put(b"rejected,rate"),
            Reject::CoverGap { family } => self.put_at_row(b"rejected,cover-gap", family),
            Reject::WorkTooLarge(count) => self.put_count(b"rejected,work", count),
            Reject::StocksOverLimit { part, site, stock } => {
                self.put_stock_at(b"rejected,stocks-over-limit,", frame, part, site, stock)
            }
            Reject::StocksBelowHeld { part, site, stock } => {
                self.put_stock_at(b"rejected,stocks-below-held,", frame, part, site, stock)
            }
            Reject::OverBudget { cost } => self.put_count(b"rejected,over-budget", cost),
            Reject::FloorTooHigh {
                family,
                floor,
                least,
            } => self.put_floor(b"rejected,floor-too-high", family, floor, least),
            Reject::LeafTooLow {
                family,
                leaf,
                floor,
                least,
            } => self.put_leaf(b"rejected,leaf-too-low", family, leaf, floor, least),
            Reject::UpperTooLow { claimed, upper } => {
                self.put_two(b"rejected,upper-too-low", claimed, upper)
            }
            Reject::BoundTooHigh { claimed, largest } => {
                self.put_two(b"rejected,bound-too-high", claimed, largest)
            }
        }
    }
}
