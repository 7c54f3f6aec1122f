ghost use Rattle.std.specs.Prelude.{◌≡◌};
ghost use Rattle.views.specs.Remark.{remark_text};

/// What else there is to say of what was shown.
#[derive(Clone, Copy, Debug, PartialEq, Eq)]
pub enum Remark {
    /// The network of a report in JSON stores no segment.
    NoSegment,
    /// A beaconing has no beacon: no core AS has a link.
    NoBeacon,
    /// An explanation found something.
    Found,
}

impl Remark {
    /// The remark as a sentence, without an end of a line.
    pub fn text(self) -> &'static str
        ensures { result.now ≡ remark_text self }
    {
        match self {
            Remark::NoSegment => {
                "no segment is stored: 'scionet_view beacons' prints the lines that make some"
            }
            Remark::NoBeacon => {
                "no segment is made: core ASes begin beacons over their links, and no core AS of \
                 the topology has one"
            }
            Remark::Found => "something was found",
        }
    }
}
