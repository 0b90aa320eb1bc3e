// The lines of VALVES: what each is refused with by its words alone, and the kind of one without a fault.
#![tactic(auto)]

ghost use Rattle.std.specs.Prelude.{◌≡◌};
ghost use Rattle.valve_lines.specs.Valves.{by_number, by_curve, valve_fault, valve_kind_of};

use codes::LinkKind;
use first_words::names_good;
use line_fields::{LineFault, fault, is_keyword, is_name, is_number};
use word_places::LineWords;

// PRV, PSV, PBV, FCV or TCV with a number for its setting.
#[tactic(auto, unfolding(crate::specs::Valves::by_number, spelled::specs::Texts::bytes_of))]
fn by_number(words: &LineWords<'_>) -> bool
    ensures { result ≡ by_number words.now }
{
    let regulates = is_keyword(words, 4, b"PRV")
        | is_keyword(words, 4, b"PSV")
        | is_keyword(words, 4, b"PBV");
    (regulates | is_keyword(words, 4, b"FCV") | is_keyword(words, 4, b"TCV")) & is_number(words, 5)
}

// GPV with the name of a curve, which is not carried.
#[tactic(auto, unfolding(crate::specs::Valves::by_curve, spelled::specs::Texts::bytes_of))]
fn by_curve(words: &LineWords<'_>) -> bool
    ensures { result ≡ by_curve words.now }
{
    is_keyword(words, 4, b"GPV") & is_name(words, 5)
}

// Name, start, end, diameter, type, setting, minor loss.
#[tactic(auto, unfolding(crate::specs::Valves::valve_fault))]
pub fn valve_fault(words: &LineWords<'_>) -> Result<(), LineFault>
    ensures { result ≡ valve_fault words.now }
{
    let count = words.has(6) & !words.has(7);
    let numbers = is_number(words, 3) & is_number(words, 6);
    let curve = by_curve(words);
    fault(
        count & names_good(words) & numbers & (by_number(words) | curve),
        curve,
    )
}

// A valve's kind, PCV for any other word.
#[tactic(auto, unfolding(crate::specs::Valves::valve_kind_of, crate::specs::Valves::valve_kinds, line_fields::specs::Fields::first_of, spelled::specs::Texts::bytes_of))]
pub fn valve_kind(words: &LineWords<'_>) -> LinkKind
    ensures { result ≡ valve_kind_of words.now }
{
    if is_keyword(words, 4, b"PRV") {
        return LinkKind::Prv;
    }
    if is_keyword(words, 4, b"PSV") {
        return LinkKind::Psv;
    }
    if is_keyword(words, 4, b"PBV") {
        return LinkKind::Pbv;
    }
    if is_keyword(words, 4, b"FCV") {
        return LinkKind::Fcv;
    }
    if is_keyword(words, 4, b"TCV") {
        return LinkKind::Tcv;
    }
    LinkKind::Pcv
}
