// The number of each reason, as the answers carry it over the boundary and in print.

#![tactic(auto)]

ghost use Rattle.std.specs.Prelude.{◌≡◌};
ghost use Rattle.written.specs.Reasons.{number_of};

use written::Reason;

// A match and no discriminants: the enum stands in `written`, which has no function whose clause would refuse a wrong number.
pub fn number_of(reason: Reason) -> u32
    ensures { result ≡ number_of reason }
{
    match reason {
        Reason::TableTooShort => 1,
        Reason::TextTooLong => 2,
        Reason::TextCut => 3,
        Reason::ByteNotAllowed => 4,
        Reason::NinthByte => 5,
        Reason::TooManyTerms => 6,
        Reason::TooManyLiterals => 7,
        Reason::TooManyClauses => 8,
        Reason::NoClause => 9,
        Reason::SheetForm => 10,
        Reason::OutOfRange => 11,
        Reason::TablesDisagree => 12,
        Reason::UnknownTerm => 13,
        Reason::ListTooLong => 14,
        Reason::BlankLine => 15,
        Reason::HeaderForm => 16,
        Reason::ClauseCount => 17,
        Reason::PastHeader => 18,
        Reason::PinnedTerm => 20,
    }
}
