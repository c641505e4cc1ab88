//! What a player knows, what it is told, and a battle that fits what it knows (include/gen1.h, "players";
//! docs/MECHANICS.md, "Player's view", "A battle that fits").
ghost use Rattle.std.specs.Prelude.{IfErr, IfOk, List, [], length as length_of, ℕ, ◌++◌, ◌↔◌, ◌≡◌, ◌≢◌, ◌≤◌};
ghost use Rattle.gen1_stats.specs.Members.{Member};
ghost use Rattle.gen1_stats.specs.Teams.{team_of};
ghost use Rattle.gen1_machine.specs.State.{State};
ghost use Rattle.gen1_machine.specs.declared.side.Side.{Side};
ghost use Rattle.gen1_machine.specs.Numbers.{side_number};
ghost use Rattle.gen1_events.specs.declared.reader.LogFault.{LogFault};
ghost use Rattle.gen1_player.specs.OwnSide.{IsListed, own_side, plain_side};
ghost use Rattle.gen1_player.specs.Player.{IsFed, IsPlayer, Shown, not_shown, player_of};
ghost use Rattle.gen1_layout.specs.Shows.{Stands};
ghost use Rattle.gen1_layout.specs.LoadingLaws.{IsBattle, StandsForSome};
ghost use Rattle.gen1_layout.specs.Parts.{parts_of};
ghost use Rattle.gen1_states.specs.Plain.{bytes_of};
ghost use Rattle.gen1_states.specs.Tests.{completed, fault_of};
ghost use Rattle.gen1_guesses.specs.Forks.{guessed_state};
ghost use Rattle.gen1_guesses.specs.declared.guess.GuessFault.TheVariants as faults;
ghost use Rattle.gen1_c.specs.Players.{BreaksOff, Tells, begin_code, code_of, fault_form_of, first_teller, guess_form, guess_of, log_code, no_state_fault, side_code, terms_code, terms_of};
ghost use Rattle.gen1_c.specs.Teams.{sheets_of, team_fault};
ghost use Rattle.gen1_c.specs.Battle.{IsNoSide};

use crate::battle::{StateFaultForm, fault_form};
use crate::codes::{RULES, STATE, TURN_LIMIT, of_log};
use crate::lines::put_front;
use crate::teams::{TeamForm, team_of};
use gen1_guesses::{Guess, GuessFault, from_player};
use gen1_layout::Packed;
use gen1_machine::{Rules, Side, TurnLimit};
use gen1_player::{HpForm, OwnSide, Player, PlayerTerms, Teller, own_side};

// The codes of include/gen1.h, "players".
const NO_SIDE: u8 = 40;

const SMALL_LOG: u8 = 27;

const TOO_MANY_FOES: u32 = 14;

const LONG_LOG: u8 = 28;

/// What a player is given before a battle, besides its side and its team.
#[derive(Drop)]
#[repr(C)]
pub struct PlayerTermsForm {
    /// 1 to 9,999.
    pub limit: u16,
    /// 0 to 3.
    pub rules: u8,
    /// How many members the foe has, 0 to 6; 0 if the player isn't to know it.
    pub foes: u8,
    /// 0 exact, 2 hundredths, any other number the bar.
    pub hp_form: u8,
    /// Ignored.
    pub reserved: u8,
}

/// Sets a player to what it knows before a battle. Returns 0, or the first error: of the side, of the number of foes, of the rules, of
/// the limit, of the team.
#[unsafe(no_mangle)]
pub extern "C" fn gen1_player_begin(
    player: &mut Player,
    side: u8,
    team: &TeamForm,
    terms: &PlayerTermsForm,
) -> u32
    ensures code { result ≡ begin_code side terms.now (team_fault team.now) }
    ensures begun { result ≡ 0 → (s : Side) → side ≡ side_number s
        → player.new ≡ player_of s (team_of (sheets_of team.now)) (terms_of terms.now) [] [] (record { own = not_shown; offered = 0 }) }
    ensures kept { result ≢ 0 → player.new ≡ player.old }
{
    let Some(side) = Side::from_number(side) else {
        return u32::from(NO_SIDE);
    };
    let terms = match terms_of(terms) {
        Ok(terms) => terms,
        Err(code) => return code,
    };
    match team_of(team) {
        Ok(team) => {
            *player = Player::new(side, &team, &terms);
            0
        }
        Err(fault) => fault,
    }
}

// The terms that a struct describes, or the error of its number of foes, its rules or its limit.
fn terms_of(form: &PlayerTermsForm) -> Result<PlayerTerms, u32>
    ensures made { IfOk result (λ terms. (terms ≡ terms_of form.now) × (terms_code form.now ≡ 0)) }
    ensures refused { IfErr result (λ code. (code ≡ terms_code form.now) × (code ≢ 0)) }
{
    if form.foes > 6 {
        return Err(TOO_MANY_FOES);
    }
    let Some(rules) = Rules::new(form.rules) else {
        return Err(RULES);
    };
    let Some(limit) = TurnLimit::new(form.limit) else {
        return Err(TURN_LIMIT);
    };
    Ok(PlayerTerms {
        rules,
        limit,
        foes: form.foes,
        hp_form: HpForm::of_number(form.hp_form),
    })
}

/// Feeds a player the next bytes of what its side is told, which may be cut anywhere. Returns 0, or the code of the error.
#[unsafe(no_mangle)]
pub extern "C" fn gen1_player_feed(player: &mut Player, told: &[u8]) -> u8
    ensures fed { (side : Side) (team : List Member) (terms : PlayerTerms) (before : List ℕ) (shown : Shown)
        → IsPlayer side team terms before shown player.old → result ≡ 0
        → IsPlayer side team terms (before ++ told.now) shown player.new }
    ensures fault { (side : Side) (team : List Member) (terms : PlayerTerms) (before : List ℕ) (shown : Shown)
        → IsPlayer side team terms before shown player.old → result ≢ 0
        → (fault : LogFault) × (result ≡ log_code fault) × BreaksOff fault (before ++ told.now) }
    // For any bytes, valid or not.
    ensures code { result ≢ 0 → (32 ≤ result) × (result ≤ 34) }
    ensures left { result ≡ 0 → IsFed player.old player.new }
    ensures kept { result ≢ 0 → player.new ≡ player.old }
{
    match player.feed(told) {
        Ok(()) => 0,
        Err(fault) => of_log(fault),
    }
}

/// Replaces what a player was last shown of itself, and the mask of its choices.
#[unsafe(no_mangle)]
pub extern "C" fn gen1_player_show(player: &mut Player, own: &OwnSide, offered: u16)
    ensures changed { player.new ≡ record player.old { own = own.now; offered = offered } }
    ensures shown { (side : Side) (team : List Member) (terms : PlayerTerms) (told : List ℕ) (shown : Shown)
        → IsPlayer side team terms told shown player.old
        → IsPlayer side team terms told (record { own = own.now; offered = offered }) player.new }
{
    player.show(own, offered);
}

/// Sets a teller to the beginning of a battle. Returns 0, or 40 for a number that is not a side.
#[unsafe(no_mangle)]
pub extern "C" fn gen1_teller_begin(teller: &mut Teller, side: u8, hp_form: u8) -> u8
    ensures code { result ≡ side_code side }
    ensures begun { result ≡ 0 → teller.new ≡ first_teller side hp_form }
    ensures kept { result ≢ 0 → teller.new ≡ teller.old }
{
    match Side::from_number(side) {
        Some(side) => {
            *teller = Teller::new(side, HpForm::of_number(hp_form));
            0
        }
        None => NO_SIDE,
    }
}

/// Writes what a side is told of the log of an update to the beginning of the caller's memory. Returns 0, or the code of an error.
#[unsafe(no_mangle)]
pub extern "C" fn gen1_tell(
    teller: &mut Teller,
    log: &[u8],
    told: &mut [u8],
    length: &mut usize,
) -> u8
    ensures told { Tells log.now (record { teller = teller.old; bytes = told.old; count = length.old })
        (record { teller = teller.new; bytes = told.new; count = length.new }) result }
    ensures within { result ≡ 0 → length.new ≤ length_of told.old }
{
    if log.len() > 512 {
        return LONG_LOG;
    }
    if told.len() < log.len() {
        return SMALL_LOG;
    }
    match teller.tell_log(log) {
        Ok(bytes) => {
            put_front(bytes.as_slice(), told);
            *length = bytes.len();
            0
        }
        Err(fault) => 31 + fault.number(),
    }
}

/// Writes what a side is shown of itself. Returns 0, or 40 if `side` is neither 1 nor 2; then nothing
/// has changed.
#[unsafe(no_mangle)]
pub extern "C" fn gen1_get_own_side(battle: &Packed, side: u8, own: &mut OwnSide) -> u8
    ensures shows { (s : State) (which : Side) → Stands battle.now s → side ≡ side_number which
        → (result ≡ 0) × (own.new ≡ plain_side (own_side which s.field)) }
    ensures no_side { IsNoSide side → (result ≡ 40) × (own.new ≡ own.old) }
    // For any bytes, valid or not.
    ensures code { result ≢ 0 → result ≡ 40 }
    ensures kept { result ≢ 0 → own.new ≡ own.old }
    ensures few { result ≡ 0 → own.new.count ≤ 6 }
    ensures listed { result ≡ 0 → IsListed own.new }
{
    let Some(side) = Side::from_number(side) else {
        return NO_SIDE;
    };
    *own = own_side(battle, side);
    0
}

// The codes of include/gen1.h, "errors".
const NOT_GOING_ON: u32 = 96;

const GUESS_COUNT: u32 = 97;

const GUESS_MEMBER: u32 = 98;

const GUESS_MOVE: u32 = 99;

const GUESS_HP: u32 = 100;

/// What a player can't know, as the caller guesses it.
#[derive(Drop)]
#[repr(C)]
pub struct GuessForm {
    /// The foe's team: first the members that have appeared, in the order in which they did, then the others.
    pub team: TeamForm,
    /// The ten link numbers; the first of them is drawn next.
    pub numbers: [u8; 10],
}

/// What does not fit.
#[derive(Clone, Copy)]
#[repr(C)]
pub struct GuessFaultForm {
    /// With the code of a state, the field that is wrong; else zeros.
    pub state: StateFaultForm,
    /// With the code of a count, how many members the foe has; else 0.
    pub count: u8,
    /// With the code of a member, of its HP or of a move, the number of the member in the order of appearance; else 0.
    pub member: u8,
    /// With the code of a move, its number; else 0.
    pub move_number: u8,
    /// 0.
    pub unused: u8,
}

/// Makes a battle that fits what a player knows, with a guess of the rest, of any bytes of the player. Returns 0, or an error of the
/// team of the guess as `gen1_new` returns it, or the code of what does not fit, which `fault` then has. With an error the battle has
/// not changed.
#[unsafe(no_mangle)]
pub extern "C" fn gen1_battle_from_player(
    battle: &mut Packed,
    player: &Player,
    guess: &GuessForm,
    fault: &mut GuessFaultForm,
) -> u32
    ensures refused { team_fault guess.now.team ≢ 0 → (result ≡ team_fault guess.now.team) × (fault.new ≡ fault.old) }
    ensures unfit { team_fault guess.now.team ≡ 0 → IfErr (guessed_state player.now (guess_of guess.now))
        (λ why. (result ≡ code_of why) × (fault.new ≡ fault_form_of why)) }
    ensures accepts { team_fault guess.now.team ≡ 0 → IfOk (guessed_state player.now (guess_of guess.now))
        (λ state. result ≡ 0 ↔ IsBattle (bytes_of (completed state))) }
    ensures made { result ≡ 0 → IfOk (guessed_state player.now (guess_of guess.now))
        (λ state. battle.new ≡ parts_of (bytes_of (completed state))) }
    ensures wrong { team_fault guess.now.team ≡ 0 → result ≢ 0 → IfOk (guessed_state player.now (guess_of guess.now))
        (λ state. (result ≡ 23) × (fault.new ≡ fault_form_of (faults.State (fault_of (completed state))))) }
    ensures stands { result ≡ 0 → StandsForSome battle.new }
    ensures faultless { result ≡ 0 → fault.new ≡ fault.old }
    ensures kept { result ≢ 0 → battle.new ≡ battle.old }
{
    let guess = match guess_of(guess) {
        Ok(guess) => guess,
        Err(code) => return code,
    };
    match from_player(player, &guess) {
        Ok(made) => {
            *battle = made;
            0
        }
        Err(why) => {
            *fault = form_of(why);
            code_of(why)
        }
    }
}

// The guess that a struct describes, or the error of its team.
fn guess_of(form: &GuessForm) -> Result<Guess, u32>
    ensures made { IfOk result (λ guess. (guess ≡ guess_of form.now) × (team_fault form.now.team ≡ 0)) }
    ensures refused { IfErr result (λ code. (code ≡ team_fault form.now.team) × (code ≢ 0)) }
{
    match team_of(&form.team) {
        Ok(team) => Ok(Guess {
            team,
            numbers: form.numbers,
        }),
        Err(code) => Err(code),
    }
}

fn code_of(why: GuessFault) -> u32
    ensures value { result ≡ code_of why }
    ensures some { 1 ≤ result }
{
    match why {
        GuessFault::NotGoingOn => NOT_GOING_ON,
        GuessFault::Count(_) => GUESS_COUNT,
        GuessFault::Member(_) => GUESS_MEMBER,
        GuessFault::Hp(_) => GUESS_HP,
        GuessFault::Move(..) => GUESS_MOVE,
        GuessFault::State(_) => u32::from(STATE),
    }
}

fn form_of(why: GuessFault) -> GuessFaultForm
    ensures { result ≡ fault_form_of why }
{
    match why {
        GuessFault::NotGoingOn => guess_form(no_state_fault(), 0, 0, 0),
        GuessFault::Count(count) => guess_form(no_state_fault(), count, 0, 0),
        GuessFault::Member(member) => guess_form(no_state_fault(), 0, member, 0),
        GuessFault::Hp(member) => guess_form(no_state_fault(), 0, member, 0),
        GuessFault::Move(member, id) => guess_form(no_state_fault(), 0, member, id),
        GuessFault::State(fault) => guess_form(fault_form(&fault), 0, 0, 0),
    }
}

fn guess_form(state: StateFaultForm, count: u8, member: u8, move_number: u8) -> GuessFaultForm
    ensures { result ≡ guess_form state count member move_number }
{
    GuessFaultForm {
        state,
        count,
        member,
        move_number,
        unused: 0,
    }
}

fn no_state_fault() -> StateFaultForm
    ensures { result ≡ no_state_fault }
{
    StateFaultForm {
        value: 0,
        low: 0,
        high: 0,
        field: 0,
        side: 0,
        place: 0,
        index: 0,
    }
}
