// The walk of a parent: every attribute in turn, judged by the policy.
ghost use Rattle.std.specs.Prelude.{◌≡◌};
ghost use Rattle.netlink.specs.Walk.{absent, absent_all, found, stopped, walked, slot_number};

use crate::policy::{Fault, Rule, Verdict, judge_by_rule, rule_of};
use netlink_attributes::{AttributeRead, payload, read_attribute};
use numbers::u32_at;

// Where the payload of the last attribute of a type stands.
#[derive(Clone, Copy)]
pub struct Slot {
    pub present: bool,
    pub start: usize,
    pub end: usize,
}

// Whether the parent is right as a whole, or its first fault and the place of the attribute that has it.
#[derive(Clone, Copy)]
pub enum Stop {
    Whole,
    At { fault: Fault, at: usize },
}

// What a walk finds: a slot for each type below 8, none present where it stopped at a fault.
#[derive(Clone, Copy)]
pub struct Walked {
    pub stop: Stop,
    pub slots: [Slot; 8],
}

// The slot of a type that no attribute has.
pub fn absent_slot() -> Slot
    ensures { result ≡ absent }
{
    Slot {
        present: false,
        start: 0,
        end: 0,
    }
}

fn no_slots() -> [Slot; 8]
    ensures { result ≡ absent_all }
{
    [Slot {
        present: false,
        start: 0,
        end: 0,
    }; 8]
}

// The slot of an attribute whose payload stands from start to end.
pub fn found(start: usize, end: usize) -> Slot
    ensures { result ≡ found start end }
{
    Slot {
        present: true,
        start,
        end,
    }
}

// The answer of a walk that stops at a fault.
fn stopped(fault: Fault, at: usize) -> Walked
    ensures { result ≡ stopped fault at }
{
    Walked {
        stop: Stop::At { fault, at },
        slots: no_slots(),
    }
}

// Walks the parent whose contents are the bytes of s from `from` on. Every place is a position in s: where s starts with the request,
// it is the offset from the request's start.
pub fn walk(policy: [Rule; 8], s: &[u8], from: usize) -> Walked
    ensures { result ≡ walked policy s.now from }
{
    let mut slots = [Slot {
        present: false,
        start: 0,
        end: 0,
    }; 8];
    let mut at = from;
    loop {
        match read_attribute(s, at) {
            AttributeRead::End => {
                return Walked {
                    stop: Stop::Whole,
                    slots,
                };
            }
            AttributeRead::Broken => {
                return stopped(Fault::Length, at);
            }
            AttributeRead::Attribute(x) => {
                match judge_by_rule(rule_of(policy, x.kind), x.bits, payload(s, x.start, x.end)) {
                    Verdict::Wrong(fault) => {
                        return stopped(fault, at);
                    }
                    Verdict::Right => {
                        let k = x.kind as usize;
                        slots[k] = found(x.start, x.end);
                        at = x.next;
                    }
                }
            }
        }
    }
}

// The number of 32 bits in a slot, 0 where the slot is absent.
pub fn slot_number(s: &[u8], slot: Slot) -> u32
    ensures { result ≡ slot_number s.now slot }
{
    if slot.present {
        let start = slot.start;
        let end = slot.end;
        return u32_at(payload(s, start, end), 0);
    }
    0
}
