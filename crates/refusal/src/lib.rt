// The refusals of document 01, in its order. `number_of` of specs/Refusal.antt gives each its number.

#![tactic(auto)]

ghost use Rattle.std.specs.Prelude.{◌≡◌};
ghost use Rattle.refusal.specs.Refusal.{number_of};

#[derive(Clone, Copy)]
pub enum Refusal {
    // 1: over 32,768 bytes, or the sheet ends before a field is whole.
    CutSheet,
    // 2: the edition is neither 1 nor 2.
    Edition,
    // 3: a name breaks the name rule.
    BadName,
    // 4: an index with no such entry.
    LooseIndex,
    // 5: item kind 5 to 7, type kind 12 or 15, enum atom outside 2 to 11.
    BadKind,
    // 6: a type at depth 9.
    TooDeep,
    // 7: a comment line breaks the line rule.
    BadComment,
    // 8: bits behind the last item that are not zero, or bytes that are too many.
    Tail,
    // 9: an item index names a function.
    WrongPart,
    // 10: a reserved namespace, or a full name, a symbol or an argument name twice.
    Taken,
    // 11: an argument that the text cannot hand on.
    UnfitArgument,
    // 12: a struct holds itself.
    Ring,
    // 13: the answer is longer than the buffer.
    Overrun,
}

// The number of a refusal.
impl From<Refusal> for u8 {
    ghost from_gives = { λ r n. n ≡ number_of r };

    fn from(r: Refusal) -> u8 {
        match r {
            Refusal::CutSheet => 1,
            Refusal::Edition => 2,
            Refusal::BadName => 3,
            Refusal::LooseIndex => 4,
            Refusal::BadKind => 5,
            Refusal::TooDeep => 6,
            Refusal::BadComment => 7,
            Refusal::Tail => 8,
            Refusal::WrongPart => 9,
            Refusal::Taken => 10,
            Refusal::UnfitArgument => 11,
            Refusal::Ring => 12,
            Refusal::Overrun => 13,
        }
    }
}
