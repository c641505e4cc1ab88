//! A battle before its first update, at turn 0 (docs/LAYOUT.md, "Header", "Member", "Turn, outcome and requests").
ghost use Rattle.std.specs.Prelude.{[], length, replicate, slice_index_or, ◌-◌, ◌≡◌, ◌≤◌};
ghost use Rattle.gen1_rolls.specs.Streams.{IsStream, Link};
ghost use Rattle.gen1_stats.specs.Members.{nobody};
ghost use Rattle.gen1_machine.specs.State.{first_state, known_in, usual_terms};
ghost use Rattle.gen1_machine.specs.Valid.{IsTerms};
ghost use Rattle.gen1_machine.specs.Layout.{header_block, high_byte, low_byte, member_block, member_blocks};
ghost use Rattle.gen1_layout.specs.Parts.{active_of, side_of, with_side};
ghost use Rattle.gen1_layout.specs.Shows.{Stands};

use crate::Packed;
use gen1_machine::{Rules, Side, TurnLimit};
use gen1_stats::{KnownMove, Member, Team};

impl Packed {
    /// A battle of two teams before its first update, with the ten numbers of a seed. It has no clauses and a turn
    /// limit of 1,000.
    pub fn new(one: &Team, two: &Team, seed: [u8; 10]) -> Packed
        ensures { Stands result (first_state usual_terms one.now two.now seed) }
    {
        Packed::with_rules(one, two, seed, Rules::default())
    }

    /// A battle of two teams before its first update, with rules and a turn limit of 1,000.
    pub fn with_rules(one: &Team, two: &Team, seed: [u8; 10], rules: Rules) -> Packed
        ensures { Stands result
            (first_state (record { rules = rules; limit = 1000 }) one.now two.now seed) }
    {
        Packed::with_limit(one, two, seed, rules, TurnLimit::default())
    }

    /// A battle of two teams before its first update, with rules and a turn limit.
    pub fn with_limit(
        one: &Team,
        two: &Team,
        seed: [u8; 10],
        rules: Rules,
        limit: TurnLimit,
    ) -> Packed
        ensures { Stands result
            (first_state (record { rules = rules; limit = limit }) one.now two.now seed) }
    {
        let mut packed = Packed::blank();
        packed.begin_header(&header_bytes(&seed, rules, limit));
        packed.begin_side(Side::One, one.members());
        packed.begin_side(Side::Two, two.members());
        packed
    }

    // A battle whose bytes are all zeros.
    fn blank() -> Packed
        ensures header { result.header ≡ replicate 24 0 }
        ensures one { result.one ≡ record
            { members = replicate 6 (replicate 24 0); active = replicate 36 0 } }
        ensures two { result.two ≡ record
            { members = replicate 6 (replicate 24 0); active = replicate 36 0 } }
    {
        Packed::of_bytes([0; 384])
    }

    fn begin_header(&mut self, header: &[u8; 24])
        ensures { self.new ≡ record self.old { header = header.now } }
    {
        self.header_mut().copy_from_slice(header);
    }

    #[tactic(auto, using(crate::proofs::WaysBack::begin_step))]
    fn begin_side(&mut self, side: Side, members: &[Member])
        requires few { length members.now ≤ 6 }
        requires blank { (side_of side self.old).members ≡ replicate 6 (replicate 24 0) }
        ensures written { self.new ≡ with_side side
            (record { members = member_blocks members.now; active = active_of side self.old })
            self.old }
    {
        for place in 1..7 {
            self.member_mut(side, place)
                .copy_from_slice(&block_of(members, place));
        }
    }
}

#[tactic(auto, unfolding(gen1_rolls::specs::Streams::byte_at))]
fn header_bytes(seed: &[u8], rules: Rules, limit: TurnLimit) -> [u8; 24]
    requires seed { length seed.now ≡ 10 }
    ensures terms { IsTerms (record { rules = rules; limit = limit }) }
    ensures seed { IsStream (Link seed.now) }
    ensures block { result ≡ header_block
        (first_state (record { rules = rules; limit = limit }) [] [] seed.now) }
{
    let limit = limit.number();
    [
        3,
        0,
        0,
        0,
        0,
        0,
        seed[0],
        seed[1],
        seed[2],
        seed[3],
        seed[4],
        seed[5],
        seed[6],
        seed[7],
        seed[8],
        seed[9],
        0,
        0,
        0,
        rules.bits(),
        low(limit),
        high(limit),
        0,
        0,
    ]
}

// The bytes of the member at a place from 1, or zeros for an empty place.
fn block_of(members: &[Member], place: u8) -> [u8; 24]
    requires { 1 ≤ place }
    ensures { result ≡ member_block (slice_index_or members.now (place - 1) nobody) }
{
    match members.get(place as usize - 1) {
        Some(member) => member_bytes(member),
        None => [0; 24],
    }
}

fn member_bytes(member: &Member) -> [u8; 24]
    ensures { result ≡ member_block member.now }
{
    let max = member.max_hp();
    let attack = member.attack();
    let defense = member.defense();
    let speed = member.speed();
    let special = member.special();
    let moves = member.moves();
    [
        member.species().number(),
        member.level(),
        low(max),
        high(max),
        low(max),
        high(max),
        low(attack),
        high(attack),
        low(defense),
        high(defense),
        low(speed),
        high(speed),
        low(special),
        high(special),
        0,
        id_in(moves, 1),
        id_in(moves, 2),
        id_in(moves, 3),
        id_in(moves, 4),
        pp_in(moves, 1),
        pp_in(moves, 2),
        pp_in(moves, 3),
        pp_in(moves, 4),
        0,
    ]
}

fn id_in(moves: &[KnownMove], slot: u8) -> u8
    requires { 1 ≤ slot }
    ensures { result ≡ (known_in slot moves.now).id }
{
    match moves.get(slot as usize - 1) {
        Some(known) => known.id.number(),
        None => 0,
    }
}

fn pp_in(moves: &[KnownMove], slot: u8) -> u8
    requires { 1 ≤ slot }
    ensures { result ≡ (known_in slot moves.now).pp }
{
    match moves.get(slot as usize - 1) {
        Some(known) => known.pp,
        None => 0,
    }
}

pub(crate) fn low(number: u16) -> u8
    ensures { result ≡ low_byte number }
{
    (number % 256) as u8
}

pub(crate) fn high(number: u16) -> u8
    ensures { result ≡ high_byte number }
{
    (number / 256) as u8
}
