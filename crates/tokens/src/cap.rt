//! The limits of this TeX: what `tex.web` calls its capacity (sections 11, 94).
ghost use Rattle.std.specs.Prelude.{◌≡◌, codes};
ghost use Rattle.tokens.specs.Cap.{cap_text, cap_limit};

/// What a run can have too much of.
#[derive(Clone, Copy, Debug, PartialEq, Eq, Hash)]
pub enum Cap {
    /// Open groups.
    Groups,
    /// Loaded fonts besides `\nullfont`.
    Fonts,
    /// Open files and pseudo-files that are being read, the first line not counted.
    Inputs,
    /// Modes on the nest, the outer vertical one counted.
    Modes,
    /// Unfinished phrases: numbers, dimensions, glues, expressions, texts, names, conditions.
    Frames,
    /// Boxes within boxes. An empty box has nesting 1.
    BoxNesting,
    /// Nodes of a list with all nodes inside them, or tokens of a list.
    Items,
    /// The absolute value of a size of a box or of the page, in scaled points.
    BoxSize,
    /// Bytes of a line before its trailing blanks are dropped.
    Line,
    /// Pages shipped out.
    Pages,
    /// Bytes of one page in the DVI file.
    PageBytes,
}

impl Cap {
    /// The words that stand in brackets behind `TeX capacity exceeded`.
    pub fn text(&self) -> &'static [u8]
        ensures { result.now ≡ cap_text self.now }
    {
        match self {
            Cap::Groups => b"grouping levels=255",
            Cap::Fonts => b"fonts=255",
            Cap::Inputs => b"text input levels=15",
            Cap::Modes => b"semantic nest=200",
            Cap::Frames => b"expansion frames=10000",
            Cap::BoxNesting => b"box nesting=500",
            Cap::Items => b"list items=16777215",
            Cap::BoxSize => b"dimension=1073741823",
            Cap::Line => b"buffer size=65535",
            Cap::Pages => b"pages=65535",
            Cap::PageBytes => b"page bytes=16777215",
        }
    }

    /// The greatest count that is allowed, the number that `text` shows.
    pub fn limit(&self) -> u32
        ensures { result ≡ cap_limit self.now }
    {
        match self {
            Cap::Groups => 255,
            Cap::Fonts => 255,
            Cap::Inputs => 15,
            Cap::Modes => 200,
            Cap::Frames => 10_000,
            Cap::BoxNesting => 500,
            Cap::Items => 16_777_215,
            Cap::BoxSize => 1_073_741_823,
            Cap::Line => 65_535,
            Cap::Pages => 65_535,
            Cap::PageBytes => 16_777_215,
        }
    }
}
