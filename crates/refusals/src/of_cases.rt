//! The lines of refused cases, stocks and rates.
ghost use Rattle.std.specs.Prelude.{◌≡◌, ◌≤◌, ◌++◌, length};
ghost use Rattle.std.specs.Option.{option_map};
ghost use Rattle.spares_input.specs.Frames.{part_at, site_at};
ghost use Rattle.refusals.specs.Lines.{case_text, names_of, pair_text, place_text, rate_text, stock_text};

use crate::line::Line;
use demand_rates::{Place, RateFault};
use spares_input::{CaseFault, Frame, PartId, SiteId, StockFault};

impl Line {
    /// Appends the names of a pair, which are empty if there is no frame.
    pub(crate) fn put_pair(&mut self, frame: Option<&Frame>, part: PartId, site: SiteId)
        requires { length self.old ≤ 34 }
        ensures text { self.new ≡ self.old ++ pair_text (names_of (option_map (λ f. f.now) frame.entry)) part site }
        ensures short { length self.new ≤ 83 }
    {
        match frame {
            Some(frame) => {
                self.put(part_name(frame, part));
                self.push(b',');
                self.put(site_name(frame, site));
            }
            None => self.push(b','),
        }
    }

    /// Appends the kind of a fault, and a pair.
    pub(crate) fn put_at_pair(
        &mut self,
        head: &'static [u8],
        frame: Option<&Frame>,
        part: PartId,
        site: SiteId,
    )
        requires old { length self.old ≤ 6 }
        requires head { length head.now ≤ 20 }
        ensures text { self.new ≡ self.old ++ (head.now
            ++ pair_text (names_of (option_map (λ f. f.now) frame.entry)) part site) }
        ensures short { length self.new ≤ 159 }
    {
        self.put(head);
        self.put_pair(frame, part, site);
    }

    /// Appends the fault of a case.
    pub(crate) fn put_case(&mut self, frame: Option<&Frame>, fault: CaseFault)
        requires { length self.old ≤ 6 }
        ensures text { self.new ≡ self.old ++ case_text (names_of (option_map (λ f. f.now) frame.entry)) fault }
        ensures short { length self.new ≤ 159 }
    {
        match fault {
            CaseFault::DoubleSite(row) => self.put_at_row(b"double-site", row),
            CaseFault::TwoDepots(row) => self.put_at_row(b"two-depots", row),
            CaseFault::NoDepot => self.put(b"no-depot"),
            CaseFault::NoBase => self.put(b"no-base"),
            CaseFault::DoublePart(row) => self.put_at_row(b"double-part", row),
            CaseFault::UnknownParent(row) => self.put_at_row(b"unknown-parent", row),
            CaseFault::ParentNotLine(row) => self.put_at_row(b"parent-not-line", row),
            CaseFault::TooManyShopUnits(row) => self.put_at_row(b"too-many-shop-units", row),
            CaseFault::DoubleRate(row) => self.put_at_row(b"double-rate", row),
            CaseFault::MissingRate(part, site) => {
                self.put_at_pair(b"missing-rate,", frame, part, site)
            }
        }
    }

    /// Appends the fault of stocks.
    pub(crate) fn put_stock(&mut self, frame: Option<&Frame>, fault: StockFault)
        requires { length self.old ≤ 6 }
        ensures text { self.new ≡ self.old ++ stock_text (names_of (option_map (λ f. f.now) frame.entry)) fault }
        ensures short { length self.new ≤ 159 }
    {
        match fault {
            StockFault::OverLimit(row) => self.put_at_row(b"over-limit", row),
            StockFault::Double(row) => self.put_at_row(b"double-stock", row),
            StockFault::Missing(part, site) => {
                self.put_at_pair(b"missing-stock,", frame, part, site)
            }
        }
    }

    /// Appends the kind of a fault of a pipeline, and its place.
    pub(crate) fn put_place(&mut self, head: &'static [u8], frame: Option<&Frame>, place: Place)
        requires old { length self.old ≤ 6 }
        requires head { length head.now ≤ 20 }
        ensures text { self.new ≡ self.old ++ (head.now
            ++ place_text (names_of (option_map (λ f. f.now) frame.entry)) place) }
        ensures short { length self.new ≤ 159 }
    {
        match place {
            Place::Single => {
                self.put(head);
                self.put(b"single");
            }
            Place::Pair(part, site) => self.put_at_pair(head, frame, part, site),
        }
    }

    /// Appends the reason why a pipeline is refused.
    pub(crate) fn put_rate(&mut self, frame: Option<&Frame>, fault: RateFault)
        requires { length self.old ≤ 6 }
        ensures text { self.new ≡ self.old ++ rate_text (names_of (option_map (λ f. f.now) frame.entry)) fault }
        ensures short { length self.new ≤ 159 }
    {
        match fault {
            RateFault::ThinPipeline { place, .. } => {
                self.put_place(b"thin-pipeline,", frame, place)
            }
            RateFault::PipelineTooLarge { place, .. } => {
                self.put_place(b"pipeline-too-large,", frame, place)
            }
            RateFault::PipelineRatio { place, .. } => {
                self.put_place(b"pipeline-ratio,", frame, place)
            }
        }
    }
}

/// The name of a part, or an empty name if the frame has no such part.
fn part_name(frame: &Frame, part: PartId) -> &[u8]
    ensures text { result.now ≡ (part_at frame.now.parts part.0).name }
    ensures short { length result.now ≤ 24 }
{
    if part.0 < frame.part_count() {
        frame.part(part).name.as_bytes()
    } else {
        b""
    }
}

/// The name of a site, or an empty name if the frame has no such site.
fn site_name(frame: &Frame, site: SiteId) -> &[u8]
    ensures text { result.now ≡ (site_at frame.now.sites site.0).name }
    ensures short { length result.now ≤ 24 }
{
    if site.0 < frame.site_count() {
        frame.site(site).name.as_bytes()
    } else {
        b""
    }
}
