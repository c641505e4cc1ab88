//! The words in sentences: HP, what is lost or gained, and levels; and those that need no number (docs/MECHANICS.md,
//! "Events").
ghost use Rattle.std.specs.Prelude.{length, ◌≡◌, ◌≤◌};
ghost use Rattle.gen1_sentences.specs.Sentences.{amount, and_words, by_stages, cant_words, change, ends, falls_ill, fault_words, gain_words, goes_on, hp_words, is_standing, leaves, left_words, level_words, loss_words, old_name, percent, recovers, source_words, starts, stat_words, status_words, times_words, unit, verb_end, who_acts, whose, with_hp};

use crate::narrator::{Person, Told};
use arrayvec::ArrayString;
use gen1_machine::{
    CantReason, DamageSource, FaultCode, Health, HitCount, Kind, Level, StageCount, Volatile,
};
use gen1_tables::{Species, Stat};
use itoa::Buffer;

/// Whose member it is.
pub(crate) fn whose(person: Person) -> &'static str
    ensures { result.now ≡ whose person }
{
    match person {
        Person::You => "Your ",
        Person::Foe => "The foe's ",
        Person::One => "Side 1's ",
        Person::Two => "Side 2's ",
    }
}

/// The side itself.
pub(crate) fn who_acts(person: Person) -> &'static str
    ensures { result.now ≡ who_acts person }
{
    match person {
        Person::You => "You",
        Person::Foe => "The foe",
        Person::One => "Side 1",
        Person::Two => "Side 2",
    }
}

/// The end of its verb.
pub(crate) fn verb_end(person: Person) -> &'static str
    ensures { result.now ≡ verb_end person }
{
    match person {
        Person::You => "",
        Person::Foe | Person::One | Person::Two => "s",
    }
}

pub(crate) fn cant_text(reason: CantReason) -> &'static str
    ensures { result.now ≡ cant_words reason }
{
    match reason {
        CantReason::Asleep => " is asleep and cannot act",
        CantReason::Frozen => " is frozen and cannot act",
        CantReason::PartiallyTrapped => " is trapped and cannot act",
        CantReason::Flinched => " flinches",
        CantReason::Recharging => " has to recharge",
        CantReason::Disabled => " cannot use its move, which is disabled",
        CantReason::Paralysed => " is fully paralysed",
    }
}

pub(crate) fn source_text(source: DamageSource) -> &'static str
    ensures { result.now ≡ source_words source }
{
    match source {
        DamageSource::Direct => "",
        DamageSource::Poison => " by poison",
        DamageSource::Burn => " by its burn",
        DamageSource::LeechSeed => " by Leech Seed",
        DamageSource::Recoil => " by recoil",
        DamageSource::Confusion => " by hitting itself",
    }
}

// A status of a member that comes out.
pub(crate) fn status_text(status: Option<Kind>) -> &'static str
    ensures { result.now ≡ status_words status }
{
    match status {
        None => "",
        Some(Kind::Sleep) => ", asleep",
        Some(Kind::Poison) => ", poisoned",
        Some(Kind::Burn) => ", burned",
        Some(Kind::Freeze) => ", frozen",
        Some(Kind::Paralysis) => ", paralysed",
    }
}

pub(crate) fn falls_ill(kind: Kind) -> &'static str
    ensures { result.now ≡ falls_ill kind }
{
    match kind {
        Kind::Sleep => " falls asleep",
        Kind::Poison => " is poisoned",
        Kind::Burn => " is burned",
        Kind::Freeze => " freezes",
        Kind::Paralysis => " is paralysed",
    }
}

pub(crate) fn recovers(kind: Kind) -> &'static str
    ensures { result.now ≡ recovers kind }
{
    match kind {
        Kind::Sleep => " wakes up",
        Kind::Poison => " is no longer poisoned",
        Kind::Burn => " is no longer burned",
        Kind::Freeze => " thaws",
        Kind::Paralysis => " is no longer paralysed",
    }
}

pub(crate) fn stat_text(stat: Stat) -> &'static str
    ensures { result.now ≡ stat_words stat }
{
    match stat {
        Stat::Attack => "'s Attack",
        Stat::Defense => "'s Defense",
        Stat::Speed => "'s Speed",
        Stat::Special => "'s Special",
        Stat::Accuracy => "'s accuracy",
        Stat::Evasion => "'s evasion",
    }
}

pub(crate) fn starts(what: Volatile) -> &'static str
    ensures { result.now ≡ starts what }
{
    match what {
        Volatile::Confusion => " becomes confused",
        Volatile::Bide => " begins to bide",
        Volatile::Substitute => " puts up a Substitute",
        Volatile::LeechSeed => " is seeded",
        Volatile::Mist => " is shrouded in Mist",
        Volatile::FocusEnergy => " focuses its energy",
        Volatile::LightScreen => " is behind Light Screen",
        Volatile::Reflect => " is behind Reflect",
        Volatile::Disable => " has a move disabled",
        Volatile::TypeChange => " takes its foe's types",
        Volatile::Trapped => " is trapped",
        Volatile::Rage => " begins to rage",
        Volatile::Splash => " begins to splash",
    }
}

pub(crate) fn goes_on(what: Volatile) -> &'static str
    ensures { result.now ≡ goes_on what }
{
    match what {
        Volatile::Confusion => " is confused",
        Volatile::Bide => " bides its time",
        Volatile::Substitute => " has its Substitute hit",
        Volatile::LeechSeed => " is still seeded",
        Volatile::Mist => " is still shrouded in Mist",
        Volatile::FocusEnergy => " still focuses its energy",
        Volatile::LightScreen => " is still behind Light Screen",
        Volatile::Reflect => " is still behind Reflect",
        Volatile::Disable => " still has a move disabled",
        Volatile::TypeChange => " still has its foe's types",
        Volatile::Trapped => " is still trapped",
        Volatile::Rage => " goes on raging",
        Volatile::Splash => " splashes: nothing happens",
    }
}

pub(crate) fn ends(what: Volatile) -> &'static str
    ensures { result.now ≡ ends what }
{
    match what {
        Volatile::Confusion => " is no longer confused",
        Volatile::Bide => " releases its energy",
        Volatile::Substitute => " loses its Substitute",
        Volatile::LeechSeed => " is no longer seeded",
        Volatile::Mist => " is no longer shrouded in Mist",
        Volatile::FocusEnergy => " no longer focuses its energy",
        Volatile::LightScreen => " is no longer behind Light Screen",
        Volatile::Reflect => " is no longer behind Reflect",
        Volatile::Disable => " may use its move again",
        Volatile::TypeChange => " has its own types again",
        Volatile::Trapped => " is no longer trapped",
        Volatile::Rage => " no longer rages",
        Volatile::Splash => " no longer splashes",
    }
}

pub(crate) fn fault_text(code: FaultCode) -> &'static str
    ensures { result.now ≡ fault_words code }
{
    if code.number() == 1 {
        " by a division by 0"
    } else {
        " at a Psywave of level 1"
    }
}

pub(crate) fn by_stages(count: StageCount) -> &'static str
    ensures { result.now ≡ by_stages count }
{
    if count.number() == 1 {
        " by 1 stage"
    } else {
        " by 2 stages"
    }
}

// Whether a member is out and has HP, so that a switch withdraws it.
fn is_standing(told: Told) -> bool
    ensures { result ≡ is_standing told }
{
    told.hp != 0 && 1 <= told.species && told.species <= 151
}

pub(crate) fn leaves(told: Told, person: Person) -> &'static str
    ensures { result.now ≡ leaves told person }
{
    if !is_standing(told) {
        return "";
    }
    match person {
        Person::You => " withdraw ",
        Person::Foe | Person::One | Person::Two => " withdraws ",
    }
}

pub(crate) fn old_name(told: Told) -> &'static str
    ensures { result.now ≡ old_name told }
{
    if !is_standing(told) {
        return "";
    }
    match Species::new(told.species) {
        Some(species) => species.name(),
        None => "",
    }
}

pub(crate) fn and_text(told: Told) -> &'static str
    ensures { result.now ≡ and_words told }
{
    if is_standing(told) { " and" } else { "" }
}

// HP in per cent of a member's maximum, rounded down; at least 1 if there are any.
fn percent(hp: u16, health: Health) -> u32
    ensures { result ≡ percent hp health }
{
    if hp == 0 {
        return 0;
    }
    (100 * u32::from(hp) / u32::from(health.max())).max(1)
}

// HP as a number, in per cent or not; at most the maximum.
fn amount(in_percent: bool, hp: u16, health: Health) -> u32
    ensures { result ≡ amount in_percent hp health }
{
    let hp = hp.min(health.max());
    if in_percent {
        percent(hp, health)
    } else {
        u32::from(hp)
    }
}

fn unit(in_percent: bool) -> &'static str
    ensures text { result.now ≡ unit in_percent }
    ensures short { length result.now ≤ 3 }
{
    if in_percent { "%" } else { " HP" }
}

// What was lost or gained, from the HP before or after.
fn change_text(in_percent: bool, high: u16, low: u16, health: Health) -> ArrayString<13>
    ensures { result.bytes ≡ change in_percent high low health }
{
    let mut text = ArrayString::new();
    let mut digits = Buffer::new();
    let number = amount(in_percent, high, health).saturating_sub(amount(in_percent, low, health));
    text.push_str(digits.format(number));
    text.push_str(unit(in_percent));
    text
}

// HP, such as "120 of 353 HP" or "33%".
fn hp_text(in_percent: bool, health: Health) -> ArrayString<17>
    ensures { result.bytes ≡ hp_words in_percent health }
{
    let mut text = ArrayString::new();
    let mut digits = Buffer::new();
    if in_percent {
        text.push_str(digits.format(percent(health.hp(), health)));
        text.push_str("%");
        return text;
    }
    text.push_str(digits.format(health.hp()));
    text.push_str(" of ");
    text.push_str(digits.format(health.max()));
    text.push_str(" HP");
    text
}

// The HP of a member that comes out, in words. Full HP are left out.
pub(crate) fn with_hp(told: Told, health: Health) -> ArrayString<24>
    ensures { result.bytes ≡ with_hp told health }
{
    let mut text = ArrayString::new();
    if health.hp() != health.max() {
        text.push_str(", with ");
        text.push_str(hp_text(told.in_percent != 0, health).as_str());
    }
    text
}

// How much HP a member lost, or its HP after the loss if those before aren't known.
pub(crate) fn loss_text(told: Told, health: Health) -> ArrayString<31>
    ensures { result.bytes ≡ loss_words told health }
{
    let mut text = ArrayString::new();
    let in_percent = told.in_percent != 0;
    if told.species == 0 {
        text.push_str(" is down to ");
        text.push_str(hp_text(in_percent, health).as_str());
        return text;
    }
    text.push_str(if health.hp() == 0 {
        " loses its last "
    } else {
        " loses "
    });
    text.push_str(change_text(in_percent, told.hp, health.hp(), health).as_str());
    text
}

// The HP that are left after a loss; nothing if none are left, or if the sentence has them already.
pub(crate) fn left_text(told: Told, health: Health) -> ArrayString<27>
    ensures { result.bytes ≡ left_words told health }
{
    let mut text = ArrayString::new();
    if told.species != 0 && health.hp() != 0 {
        text.push_str(", down to ");
        text.push_str(hp_text(told.in_percent != 0, health).as_str());
    }
    text
}

// How much HP a member gained and now has, or only the latter if its HP before aren't known.
pub(crate) fn gain_text(told: Told, health: Health) -> ArrayString<45>
    ensures { result.bytes ≡ gain_words told health }
{
    let mut text = ArrayString::new();
    let in_percent = told.in_percent != 0;
    if told.species == 0 {
        text.push_str(" is healed to ");
    } else {
        text.push_str(" gains ");
        text.push_str(change_text(in_percent, health.hp(), told.hp, health).as_str());
        text.push_str(", up to ");
    }
    text.push_str(hp_text(in_percent, health).as_str());
    text
}

// How often a member was hit.
pub(crate) fn times_text(count: HitCount) -> ArrayString<9>
    ensures { result.bytes ≡ times_words count }
{
    let mut text = ArrayString::new();
    if count.number() == 1 {
        text.push_str("once");
        return text;
    }
    let mut digits = Buffer::new();
    text.push_str(digits.format(count.number()));
    text.push_str(" times");
    text
}

// The level after a species, in words. Level 100 is left out.
pub(crate) fn level_text(level: Level) -> ArrayString<11>
    ensures { result.bytes ≡ level_words level }
{
    let mut text = ArrayString::new();
    if level.number() != 100 {
        let mut digits = Buffer::new();
        text.push_str(", level ");
        text.push_str(digits.format(level.number()));
    }
    text
}
