// One ISD-P as the card holds it: AID, life cycle, quota, used bytes, policy and mark, and the tests on it alone.
// A place that is not held is the record of zeros; every function answers for every record, sound or not.
#![tactic(auto, unfolding(crate::proofs::Opened::places))]

ghost use Rattle.std.specs.Prelude.{◌≡◌, cond, ◌&&◌, ◌+◌, ◌/◌, ◌%◌, ◌≤◌, length, drop, leb, ltb, eqb};
ghost use Rattle.card_isdp.specs.Sizes.{most_aid};
ghost use Rattle.card_isdp.specs.Aids.{aid_ok, padded, named, no_aid, bytes_of};
ghost use Rattle.card_isdp.specs.Policy.{policy_ok, forbids_disabling, forbids_deletion, once_disabled};
ghost use Rattle.card_isdp.specs.LifeCycle.{is_enabled, with_life, with_used, with_policy, with_mark, finish, off};
ghost use Rattle.card_isdp.specs.Provisioning.{mark_ok, may_be_fall_back};
ghost use Rattle.card_isdp.specs.Place.{vacant, made, is_for, zeros, life_ok, empty_ok, held_ok, place_ok, clash};

use base_bytes::same;

// An AID: its bytes with zeros after them, and its length; length 0 where there is none. No Option: a script's `card` line hands in any
// such record, and `HeldPlace` and `ZeroPlace` (specs/Clauses) tell the places apart by the length.
#[derive(Clone, Copy)]
pub struct Aid {
    pub bytes: [u8; 16],
    pub len: u8,
}

// The numbers stand first, so that a profile takes 28 bytes (decision B35). The mark is that of provisioning capability.
// Life cycle, policy and mark are bytes and no enums: `HeldPlace` (specs/Clauses) states their numbers, and a script's `card` line hands
// in any byte.
#[derive(Clone, Copy)]
pub struct Isdp {
    pub quota: u32,
    pub used: u32,
    pub life: u8,
    pub policy: u8,
    pub mark: u8,
    pub aid: Aid,
}

impl Isdp {
    pub const SELECTABLE: u8 = 0x07;

    pub const PERSONALIZED: u8 = 0x0F;

    pub const DISABLED: u8 = 0x1F;

    pub const ENABLED: u8 = 0x3F;
}

// Which of the two optional tags a row of GET STATUS shows of an ISD-P: 9F70, its life cycle, and 53, the Fall-back Attribute.
#[derive(Clone, Copy)]
pub struct Tags {
    pub life: bool,
    pub fall_back: bool,
}

// Has the AID 5 to 16 bytes?
pub fn aid_ok(aid: &[u8]) -> bool
    ensures { result ≡ aid_ok aid.now }
{
    let n = aid.len();
    (5 <= n) & (n <= 16)
}

// The first sixteen bytes of the AID, with zeros after them where it is shorter.
pub fn pad(aid: &[u8]) -> [u8; 16]
    ensures { result ≡ padded aid.now }
{
    let mut bytes = [0; 16];
    let n = aid.len().min(16);
    bytes[..n].copy_from_slice(&aid[..n]);
    bytes
}

impl Aid {
    pub fn none() -> Aid
        ensures { result ≡ no_aid }
    {
        Aid {
            bytes: [0; 16],
            len: 0,
        }
    }

    // The AID as it is kept; of one that is too long, the first sixteen bytes. Not `From`: of such an AID a part is lost.
    pub fn of(aid: &[u8]) -> Aid
        ensures { result ≡ named aid.now }
    {
        Aid {
            bytes: pad(aid),
            len: aid.len().min(16) as u8,
        }
    }

    // How many of the sixteen bytes are the AID.
    pub fn size(self) -> usize
        ensures { (result ≡ length (bytes_of self)) × (result ≤ most_aid) }
    {
        (self.len as usize).min(16)
    }

    // The bytes that are the AID.
    pub fn as_slice(&self) -> &[u8]
        ensures { result.now ≡ bytes_of self.now }
    {
        &self.bytes[..self.size()]
    }
}

// Is the policy byte legal?
pub fn policy_ok(policy: u8) -> bool
    ensures { result ≡ policy_ok policy }
{
    policy <= 4
}

// Is the bit of this weight set?
fn bit<const WEIGHT: u8>(policy: u8) -> bool
    requires { 1 ≤ WEIGHT }
    ensures { result ≡ eqb (policy / WEIGHT % 2) 1 }
{
    policy / WEIGHT % 2 == 1
}

pub fn forbids_disabling(policy: u8) -> bool
    ensures { result ≡ forbids_disabling policy }
{
    bit::<1>(policy)
}

pub fn forbids_deletion(policy: u8) -> bool
    ensures { result ≡ forbids_deletion policy }
{
    bit::<2>(policy)
}

pub fn once_disabled(policy: u8) -> bool
    ensures { result ≡ once_disabled policy }
{
    bit::<4>(policy)
}

// Is the mark of provisioning capability legal?
pub fn mark_ok(mark: u8) -> bool
    ensures { result ≡ mark_ok mark }
{
    mark <= 1
}

// Are the bytes from `n` on zero? All of them are looked at: they nearly always are, and a loop with one way out takes less.
// By number, as the definition drops the first n: `skip(n)` would be as long.
fn zeros_from(bytes: [u8; 16], n: usize) -> bool
    ensures { result ≡ zeros (drop n bytes) }
{
    let mut all = true;
    for i in n..16 {
        all = all & (bytes[i] == 0);
    }
    all
}

// A place that is not held has zeros only.
fn empty_ok(p: &Isdp) -> bool
    ensures { result ≡ empty_ok p.now }
{
    (p.life == 0) & ((p.quota == 0) & ((p.used == 0) & ((p.policy == 0) & (p.mark == 0))))
}

fn life_ok(life: u8) -> bool
    ensures { result ≡ life_ok life }
{
    matches!(
        life,
        Isdp::SELECTABLE | Isdp::PERSONALIZED | Isdp::DISABLED | Isdp::ENABLED
    )
}

// The sizes and codings of a held place, its life cycle apart.
fn held_ok(p: &Isdp, capacity: u32) -> bool
    ensures { result ≡ held_ok capacity p.now }
{
    (5 <= p.aid.len)
        & ((p.aid.len <= 16)
            & ((1 <= p.quota)
                & ((p.quota <= capacity)
                    & ((p.used <= p.quota) & (policy_ok(p.policy) & mark_ok(p.mark))))))
}

// The sizes and codings of one place.
pub fn place_ok(p: &Isdp, capacity: u32) -> bool
    ensures { result ≡ place_ok capacity p.now }
{
    let rest = zeros_from(p.aid.bytes, p.aid.len as usize);
    if p.aid.len == 0 {
        return empty_ok(p) & rest;
    }
    life_ok(p.life) & (held_ok(p, capacity) & rest)
}

// Is the place held, with this AID?
pub fn is_for(p: &Isdp, aid: &[u8]) -> bool
    ensures { result ≡ is_for aid.now p.now }
{
    p.aid.len != 0 && same(p.aid.as_slice(), aid)
}

// Are the two places held with one AID?
pub fn clashes(p: &Isdp, q: &Isdp) -> bool
    ensures { result ≡ clash p.now q.now }
{
    p.aid.len != 0 && is_for(q, p.aid.as_slice())
}

impl Isdp {
    // A place that is not held.
    pub fn none() -> Isdp
        ensures { result ≡ vacant }
    {
        Isdp {
            quota: 0,
            used: 0,
            life: 0,
            policy: 0,
            mark: 0,
            aid: Aid::none(),
        }
    }

    // A profile with an empty policy and no mark.
    pub fn made(aid: &[u8], life: u8, quota: u32, used: u32) -> Isdp
        ensures { result ≡ made aid.now life quota used }
    {
        Isdp {
            aid: Aid::of(aid),
            life,
            quota,
            used,
            ..Isdp::none()
        }
    }

    pub fn with_life(self, life: u8) -> Isdp
        ensures { result ≡ with_life self life }
    {
        Isdp { life, ..self }
    }

    pub fn with_used(self, used: u32) -> Isdp
        ensures { result ≡ with_used self used }
    {
        Isdp { used, ..self }
    }

    pub fn with_policy(self, policy: u8) -> Isdp
        ensures { result ≡ with_policy self policy }
    {
        Isdp { policy, ..self }
    }

    pub fn with_mark(self, mark: u8) -> Isdp
        ensures { result ≡ with_mark self mark }
    {
        Isdp { mark, ..self }
    }

    // DISABLED, with this policy and this mark.
    pub fn finish(self, policy: u8, mark: u8) -> Isdp
        ensures { result ≡ finish self policy mark }
    {
        Isdp {
            life: Isdp::DISABLED,
            policy,
            mark,
            ..self
        }
    }

    // An ENABLED place is DISABLED, any other stays.
    pub fn off(self) -> Isdp
        ensures { result ≡ off self }
    {
        if self.life == Isdp::ENABLED {
            return self.with_life(Isdp::DISABLED);
        }
        self
    }

    // May the profile be the fall-back?
    pub fn may_be_fall_back(self) -> bool
        ensures { result ≡ may_be_fall_back self }
    {
        ((self.life == Isdp::DISABLED) | (self.life == Isdp::ENABLED)) & (self.mark == 1)
    }

    // Do n bytes more keep within the quota? Compared without a sum, which could pass 32 bits (decision 40).
    pub fn has_room(self, n: u32) -> bool
        ensures { result ≡ leb (self.used + n) self.quota }
    {
        self.used <= self.quota && n <= self.quota - self.used
    }
}
