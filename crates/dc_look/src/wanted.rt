//! Which types are wanted.
ghost use Rattle.std.specs.Prelude.{◌≡◌, ◌==◌, [], ◌∷◌};
ghost use Rattle.std.specs.List.{list_any};
ghost use Rattle.dc_model.specs.Message as message;
ghost use Rattle.dc_model.specs.Marks as marks;
ghost use Rattle.dc_rules.specs.Refusals.{rule_of};
ghost use Rattle.dc_machine.specs.Turn as machine;

use dc_rules::Rule;
use dc_types::rtype;

/// The types for which there are rules of their own.
const RULED: [u16; 7] = [
    rtype::ANY,
    rtype::AXFR,
    rtype::CNAME,
    rtype::NS,
    rtype::PTR,
    rtype::A,
    rtype::MX,
];

/// Whether a type is wanted: it is the one asked for, or ANY is asked for.
pub(crate) fn is_wanted(wanted: u16, kind: u16) -> bool
    ensures { result ≡ marks.is_wanted wanted kind }
{
    kind == wanted || wanted == rtype::ANY
}

/// Whether there is a rule for a type, under both rules of a configuration.
fn is_ruled(kind: u16) -> bool
    ensures { result ≡ list_any (λ k. k == kind) (message.kind_any ∷ message.kind_axfr ∷ message.kind_cname ∷ message.kind_ns ∷ message.kind_ptr ∷ message.kind_a ∷ message.kind_mx ∷ []) }
{
    RULED.iter().any(|ruled| *ruled == kind)
}

/// Whether a type is one that no other rule looks for in the cache.
#[tactic(auto, unfolding(dc_machine::specs::Turn::is_other))]
pub(crate) fn is_other(rule: Rule, kind: u16) -> bool
    ensures { result ≡ machine.is_other (rule_of rule) kind }
{
    if is_ruled(kind) {
        return false;
    }
    match rule {
        Rule::One => true,
        Rule::Two => kind != rtype::SOA,
    }
}
