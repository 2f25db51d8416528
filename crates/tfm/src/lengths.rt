//! The twelve lengths with which a TFM file begins, and where they put its tables (tex.web sections
//! 540, 565 and 566).

use crate::quarters::half;

/// How long the parts of a TFM file are, in words of four bytes, and which characters it has. The
/// names of TeX's own are in parentheses.
#[derive(Clone, Copy, Debug, PartialEq, Eq)]
pub struct Lengths {
    /// the whole file (lf)
    pub file: u16,
    /// the header (lh)
    pub header: u16,
    /// the smallest character code (bc)
    pub first: u16,
    /// the largest character code (ec)
    pub last: u16,
    /// the width table (nw)
    pub widths: u16,
    /// the height table (nh)
    pub heights: u16,
    /// the depth table (nd)
    pub depths: u16,
    /// the table of italic corrections (ni)
    pub italics: u16,
    /// the ligature and kern program (nl)
    pub instructions: u16,
    /// the kern table (nk)
    pub kerns: u16,
    /// the table of extensible characters (ne)
    pub extensibles: u16,
    /// the parameters (np)
    pub parameters: u16,
}

impl Lengths {
    ghost use Rattle.std.specs.Prelude.{◌≡◌, ◌≤◌, length};
    ghost use Rattle.tfm.specs.FontMetricsLengths.{lengths_of, character_count, all_small, has_range, has_first_entries, words_of, agree, characters_at, widths_at, heights_at, depths_at, italics_at, instructions_at, kerns_at, extensibles_at, parameters_at};

    #[tactic(auto, unfolding(crate::specs::FontMetricsLengths::lengths_of))]
    pub fn read(bytes: &[u8]) -> Lengths
        requires { 24 ≤ length bytes.now }
        ensures { result ≡ lengths_of bytes.now }
    {
        Lengths {
            file: half(bytes, 0),
            header: half(bytes, 2),
            first: half(bytes, 4),
            last: half(bytes, 6),
            widths: half(bytes, 8),
            heights: half(bytes, 10),
            depths: half(bytes, 12),
            italics: half(bytes, 14),
            instructions: half(bytes, 16),
            kerns: half(bytes, 18),
            extensibles: half(bytes, 20),
            parameters: half(bytes, 22),
        }
    }

    /// How many words the character table has.
    pub fn characters(self) -> u32
        ensures { result ≡ character_count self }
    {
        (u32::from(self.last) + 1).saturating_sub(u32::from(self.first))
    }

    fn are_small(self) -> bool
        ensures { result ≡ all_small self }
    {
        [
            self.file,
            self.header,
            self.first,
            self.last,
            self.widths,
            self.heights,
            self.depths,
            self.italics,
            self.instructions,
            self.kerns,
            self.extensibles,
            self.parameters,
        ]
        .iter()
        .all(|length| *length < 32768)
    }

    fn have_range(self) -> bool
        ensures { result ≡ has_range self }
    {
        self.header >= 2 && self.last <= 255 && self.first <= self.last + 1
    }

    fn have_first_entries(self) -> bool
        ensures { result ≡ has_first_entries self }
    {
        self.widths > 0 && self.heights > 0 && self.depths > 0 && self.italics > 0
    }

    fn words(self) -> usize
        ensures { result ≡ words_of self }
    {
        6 + usize::from(self.header)
            + self.characters() as usize
            + usize::from(self.widths)
            + usize::from(self.heights)
            + usize::from(self.depths)
            + usize::from(self.italics)
            + usize::from(self.instructions)
            + usize::from(self.kerns)
            + usize::from(self.extensibles)
            + usize::from(self.parameters)
    }

    /// Whether the lengths agree with one another.
    pub fn agree(self) -> bool
        ensures { result ≡ agree self }
    {
        self.are_small()
            && self.have_range()
            && self.have_first_entries()
            && usize::from(self.file) == self.words()
    }

    /// Where the character table begins, as each of the calls below for its table.
    pub fn characters_at(self) -> usize
        ensures { result ≡ characters_at self }
    {
        24 + 4 * usize::from(self.header)
    }

    pub fn widths_at(self) -> usize
        ensures { result ≡ widths_at self }
    {
        self.characters_at() + 4 * self.characters() as usize
    }

    pub fn heights_at(self) -> usize
        ensures { result ≡ heights_at self }
    {
        self.widths_at() + 4 * usize::from(self.widths)
    }

    pub fn depths_at(self) -> usize
        ensures { result ≡ depths_at self }
    {
        self.heights_at() + 4 * usize::from(self.heights)
    }

    pub fn italics_at(self) -> usize
        ensures { result ≡ italics_at self }
    {
        self.depths_at() + 4 * usize::from(self.depths)
    }

    pub fn instructions_at(self) -> usize
        ensures { result ≡ instructions_at self }
    {
        self.italics_at() + 4 * usize::from(self.italics)
    }

    pub fn kerns_at(self) -> usize
        ensures { result ≡ kerns_at self }
    {
        self.instructions_at() + 4 * usize::from(self.instructions)
    }

    pub fn extensibles_at(self) -> usize
        ensures { result ≡ extensibles_at self }
    {
        self.kerns_at() + 4 * usize::from(self.kerns)
    }

    pub fn parameters_at(self) -> usize
        ensures { result ≡ parameters_at self }
    {
        self.extensibles_at() + 4 * usize::from(self.extensibles)
    }
}
