//! The items of a cached body.
ghost use Rattle.std.specs.Prelude.{◌≡◌, [], ◌∷◌, MatchOption};
ghost use Rattle.dc_model.specs.Bodies.{items_of};
ghost use Rattle.dc_packet.specs.Data.{body_of};
ghost use Rattle.dc_rules.specs.Refusals.{rule_of};

use crate::item::item_at;
use dc_packet::Data;
use dc_rules::Rule;
use std::marker::Model;

/// The items of a cached body that are left, one after another.
#[derive(Drop)]
pub struct Items<'a> {
    rule: Rule,
    kind: u16,
    body: &'a [u8],
    at: usize,
}

impl<'a> Model for Items<'a> {
    ghost use Rattle.std.specs.Prelude.{List, ◌≤◌, length};
    ghost use Rattle.dc_model.specs.Message.{Body};
    ghost use Rattle.dc_items.specs.Left.{items_left};
    ghost use Rattle.dc_rules.specs.Refusals.{rule_of};

    ghost Value = { List Body };

    ghost view = { λ s. items_left (rule_of s.rule) s.kind s.body.now s.at };

    ghost invariant = { λ s. s.at ≤ length s.body.now };
}

impl<'a> Items<'a> {
    /// The items of a body of an entry of this type, under a rule: of NS and PTR names, of MX preferences with names, of A
    /// addresses, of SOA under rule Two two names with 20 bytes, and of all other types bytes behind their length (RFC 1035,
    /// 3.3, 3.4). They end at the first place where no whole item stands.
    pub fn new(rule: Rule, kind: u16, body: &'a [u8]) -> Items<'a>
        ensures { result ≡ items_of (rule_of rule) kind body.now }
    {
        Items {
            rule,
            kind,
            body,
            at: 0,
        }
    }

    /// Takes off the first item. `None` comes exactly where none is left.
    pub fn next_item(&mut self) -> Option<Data<'a>>
        ensures { MatchOption result ((self.old ≡ []) × (self.new ≡ [])) (λ d. self.old ≡ body_of d ∷ self.new) }
    {
        match item_at(self.rule, self.kind, self.body, self.at) {
            Some(item) => {
                self.at = item.after;
                Some(item.data)
            }
            None => {
                self.at = self.body.len();
                None
            }
        }
    }
}
