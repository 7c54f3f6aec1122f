//! Laws of path headers: each is the contract of a function that does nothing.

ghost use Rattle.std.specs.Prelude.{◌≡◌, ℕ, ◌<◌, List, [], ◌++◌, length, Ok};
ghost use Rattle.path_header.specs.declared.lens.SegLens.{SegLens};
ghost use Rattle.path_header.specs.Value.{HeaderValue, IsHeader, IsInSegment, header_len, hop_count, segment_at};
ghost use Rattle.path_header.specs.Spelling.{FitsBits, SpellsHeader, spelling};
ghost use Rattle.path_header.specs.Reading.{read_at};
ghost use Rattle.path_header.specs.Reversal.{reversed_header};

/// Each header has exactly one spelling, no two headers have the same, and no spelling is the
/// beginning of another.
pub fn one_spelling()
    ensures same_text { (v : HeaderValue) (text other : List ℕ) → SpellsHeader text v
        → SpellsHeader other v
        → text ≡ other }
    ensures no_prefix { (v w : HeaderValue) (text more : List ℕ) → SpellsHeader text v
        → SpellsHeader (text ++ more) w → (v ≡ w) × (more ≡ []) }
{}

/// Each hop field belongs to exactly one segment; the sums of the lengths before it and up to it
/// give that segment.
pub fn one_segment()
    ensures stands { (l : SegLens) (hop : ℕ) → hop < hop_count l
        → IsInSegment l hop (segment_at l hop) }
    ensures alone { (l : SegLens) (hop segment : ℕ) → IsInSegment l hop segment → segment
        ≡ segment_at l hop }
{}

/// The reversed header is a header, and reversing it again gives the first header back.
pub fn reversed_twice()
    ensures back { (v : HeaderValue) → IsHeader v → reversed_header (reversed_header v) ≡ v }
    ensures header { (v : HeaderValue) → IsHeader v → IsHeader (reversed_header v) }
{}

/// Reading a spelling of a header gives that header and its length, whatever follows; and
/// `spelling` spells each header whose numbers fit.
pub fn spelled_is_read()
    ensures read { (v : HeaderValue) (text rest : List ℕ) → SpellsHeader text v
        → read_at (text ++ rest) ≡ Ok (v, header_len v) }
    ensures long { (v : HeaderValue) (text : List ℕ) → SpellsHeader text v
        → length text ≡ header_len v }
    ensures spelled { (v : HeaderValue) → IsHeader v → FitsBits v → SpellsHeader (spelling v) v }
{}
