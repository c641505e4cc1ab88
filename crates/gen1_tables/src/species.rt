//! The species by their numbers. Each has its types and base stats (docs/TABLES.md, "Species").
ghost use Rattle.std.specs.Prelude.{◌≡◌, ◌≢◌, ◌↔◌, ℕ, ◌≤◌, nat_le, ◌&&◌, if◌then◌else◌, IfSome, IsNone};
ghost use Rattle.gen1_tables.specs.Names.{species_name, species_named};
ghost use Rattle.gen1_tables.specs.Species.{species_row, base_of, types_of};

use crate::names::{name_at, place_of, species_names};
use crate::types::Element::{
    self, Bug, Dragon, Electric, Fighting, Fire, Flying, Ghost, Grass, Ground, Ice, Normal, Poison,
    Psychic, Rock, Water,
};
use std::marker::Model;

// The two types, and base HP, Attack, Defense, Speed, Special.
type SpeciesRow = (Element, Element, [u8; 5]);

static SPECIES_ROWS: [SpeciesRow; 151] = [
    (Grass, Poison, [45, 49, 49, 45, 65]), // Bulbasaur
    (Grass, Poison, [60, 62, 63, 60, 80]), // Ivysaur
    (Grass, Poison, [80, 82, 83, 80, 100]), // Venusaur
    (Fire, Fire, [39, 52, 43, 65, 50]), // Charmander
    (Fire, Fire, [58, 64, 58, 80, 65]), // Charmeleon
    (Fire, Flying, [78, 84, 78, 100, 85]), // Charizard
    (Water, Water, [44, 48, 65, 43, 50]), // Squirtle
    (Water, Water, [59, 63, 80, 58, 65]), // Wartortle
    (Water, Water, [79, 83, 100, 78, 85]), // Blastoise
    (Bug, Bug, [45, 30, 35, 45, 20]), // Caterpie
    (Bug, Bug, [50, 20, 55, 30, 25]), // Metapod
    (Bug, Flying, [60, 45, 50, 70, 80]), // Butterfree
    (Bug, Poison, [40, 35, 30, 50, 20]), // Weedle
    (Bug, Poison, [45, 25, 50, 35, 25]), // Kakuna
    (Bug, Poison, [65, 80, 40, 75, 45]), // Beedrill
    (Normal, Flying, [40, 45, 40, 56, 35]), // Pidgey
    (Normal, Flying, [63, 60, 55, 71, 50]), // Pidgeotto
    (Normal, Flying, [83, 80, 75, 91, 70]), // Pidgeot
    (Normal, Normal, [30, 56, 35, 72, 25]), // Rattata
    (Normal, Normal, [55, 81, 60, 97, 50]), // Raticate
    (Normal, Flying, [40, 60, 30, 70, 31]), // Spearow
    (Normal, Flying, [65, 90, 65, 100, 61]), // Fearow
    (Poison, Poison, [35, 60, 44, 55, 40]), // Ekans
    (Poison, Poison, [60, 85, 69, 80, 65]), // Arbok
    (Electric, Electric, [35, 55, 30, 90, 50]), // Pikachu
    (Electric, Electric, [60, 90, 55, 100, 90]), // Raichu
    (Ground, Ground, [50, 75, 85, 40, 30]), // Sandshrew
    (Ground, Ground, [75, 100, 110, 65, 55]), // Sandslash
    (Poison, Poison, [55, 47, 52, 41, 40]), // Nidoran-F
    (Poison, Poison, [70, 62, 67, 56, 55]), // Nidorina
    (Poison, Ground, [90, 82, 87, 76, 75]), // Nidoqueen
    (Poison, Poison, [46, 57, 40, 50, 40]), // Nidoran-M
    (Poison, Poison, [61, 72, 57, 65, 55]), // Nidorino
    (Poison, Ground, [81, 92, 77, 85, 75]), // Nidoking
    (Normal, Normal, [70, 45, 48, 35, 60]), // Clefairy
    (Normal, Normal, [95, 70, 73, 60, 85]), // Clefable
    (Fire, Fire, [38, 41, 40, 65, 65]), // Vulpix
    (Fire, Fire, [73, 76, 75, 100, 100]), // Ninetales
    (Normal, Normal, [115, 45, 20, 20, 25]), // Jigglypuff
    (Normal, Normal, [140, 70, 45, 45, 50]), // Wigglytuff
    (Poison, Flying, [40, 45, 35, 55, 40]), // Zubat
    (Poison, Flying, [75, 80, 70, 90, 75]), // Golbat
    (Grass, Poison, [45, 50, 55, 30, 75]), // Oddish
    (Grass, Poison, [60, 65, 70, 40, 85]), // Gloom
    (Grass, Poison, [75, 80, 85, 50, 100]), // Vileplume
    (Bug, Grass, [35, 70, 55, 25, 55]), // Paras
    (Bug, Grass, [60, 95, 80, 30, 80]), // Parasect
    (Bug, Poison, [60, 55, 50, 45, 40]), // Venonat
    (Bug, Poison, [70, 65, 60, 90, 90]), // Venomoth
    (Ground, Ground, [10, 55, 25, 95, 45]), // Diglett
    (Ground, Ground, [35, 80, 50, 120, 70]), // Dugtrio
    (Normal, Normal, [40, 45, 35, 90, 40]), // Meowth
    (Normal, Normal, [65, 70, 60, 115, 65]), // Persian
    (Water, Water, [50, 52, 48, 55, 50]), // Psyduck
    (Water, Water, [80, 82, 78, 85, 80]), // Golduck
    (Fighting, Fighting, [40, 80, 35, 70, 35]), // Mankey
    (Fighting, Fighting, [65, 105, 60, 95, 60]), // Primeape
    (Fire, Fire, [55, 70, 45, 60, 50]), // Growlithe
    (Fire, Fire, [90, 110, 80, 95, 80]), // Arcanine
    (Water, Water, [40, 50, 40, 90, 40]), // Poliwag
    (Water, Water, [65, 65, 65, 90, 50]), // Poliwhirl
    (Water, Fighting, [90, 85, 95, 70, 70]), // Poliwrath
    (Psychic, Psychic, [25, 20, 15, 90, 105]), // Abra
    (Psychic, Psychic, [40, 35, 30, 105, 120]), // Kadabra
    (Psychic, Psychic, [55, 50, 45, 120, 135]), // Alakazam
    (Fighting, Fighting, [70, 80, 50, 35, 35]), // Machop
    (Fighting, Fighting, [80, 100, 70, 45, 50]), // Machoke
    (Fighting, Fighting, [90, 130, 80, 55, 65]), // Machamp
    (Grass, Poison, [50, 75, 35, 40, 70]), // Bellsprout
    (Grass, Poison, [65, 90, 50, 55, 85]), // Weepinbell
    (Grass, Poison, [80, 105, 65, 70, 100]), // Victreebel
    (Water, Poison, [40, 40, 35, 70, 100]), // Tentacool
    (Water, Poison, [80, 70, 65, 100, 120]), // Tentacruel
    (Rock, Ground, [40, 80, 100, 20, 30]), // Geodude
    (Rock, Ground, [55, 95, 115, 35, 45]), // Graveler
    (Rock, Ground, [80, 110, 130, 45, 55]), // Golem
    (Fire, Fire, [50, 85, 55, 90, 65]), // Ponyta
    (Fire, Fire, [65, 100, 70, 105, 80]), // Rapidash
    (Water, Psychic, [90, 65, 65, 15, 40]), // Slowpoke
    (Water, Psychic, [95, 75, 110, 30, 80]), // Slowbro
    (Electric, Electric, [25, 35, 70, 45, 95]), // Magnemite
    (Electric, Electric, [50, 60, 95, 70, 120]), // Magneton
    (Normal, Flying, [52, 65, 55, 60, 58]), // Farfetchd
    (Normal, Flying, [35, 85, 45, 75, 35]), // Doduo
    (Normal, Flying, [60, 110, 70, 100, 60]), // Dodrio
    (Water, Water, [65, 45, 55, 45, 70]), // Seel
    (Water, Ice, [90, 70, 80, 70, 95]), // Dewgong
    (Poison, Poison, [80, 80, 50, 25, 40]), // Grimer
    (Poison, Poison, [105, 105, 75, 50, 65]), // Muk
    (Water, Water, [30, 65, 100, 40, 45]), // Shellder
    (Water, Ice, [50, 95, 180, 70, 85]), // Cloyster
    (Ghost, Poison, [30, 35, 30, 80, 100]), // Gastly
    (Ghost, Poison, [45, 50, 45, 95, 115]), // Haunter
    (Ghost, Poison, [60, 65, 60, 110, 130]), // Gengar
    (Rock, Ground, [35, 45, 160, 70, 30]), // Onix
    (Psychic, Psychic, [60, 48, 45, 42, 90]), // Drowzee
    (Psychic, Psychic, [85, 73, 70, 67, 115]), // Hypno
    (Water, Water, [30, 105, 90, 50, 25]), // Krabby
    (Water, Water, [55, 130, 115, 75, 50]), // Kingler
    (Electric, Electric, [40, 30, 50, 100, 55]), // Voltorb
    (Electric, Electric, [60, 50, 70, 140, 80]), // Electrode
    (Grass, Psychic, [60, 40, 80, 40, 60]), // Exeggcute
    (Grass, Psychic, [95, 95, 85, 55, 125]), // Exeggutor
    (Ground, Ground, [50, 50, 95, 35, 40]), // Cubone
    (Ground, Ground, [60, 80, 110, 45, 50]), // Marowak
    (Fighting, Fighting, [50, 120, 53, 87, 35]), // Hitmonlee
    (Fighting, Fighting, [50, 105, 79, 76, 35]), // Hitmonchan
    (Normal, Normal, [90, 55, 75, 30, 60]), // Lickitung
    (Poison, Poison, [40, 65, 95, 35, 60]), // Koffing
    (Poison, Poison, [65, 90, 120, 60, 85]), // Weezing
    (Ground, Rock, [80, 85, 95, 25, 30]), // Rhyhorn
    (Ground, Rock, [105, 130, 120, 40, 45]), // Rhydon
    (Normal, Normal, [250, 5, 5, 50, 105]), // Chansey
    (Grass, Grass, [65, 55, 115, 60, 100]), // Tangela
    (Normal, Normal, [105, 95, 80, 90, 40]), // Kangaskhan
    (Water, Water, [30, 40, 70, 60, 70]), // Horsea
    (Water, Water, [55, 65, 95, 85, 95]), // Seadra
    (Water, Water, [45, 67, 60, 63, 50]), // Goldeen
    (Water, Water, [80, 92, 65, 68, 80]), // Seaking
    (Water, Water, [30, 45, 55, 85, 70]), // Staryu
    (Water, Psychic, [60, 75, 85, 115, 100]), // Starmie
    (Psychic, Psychic, [40, 45, 65, 90, 100]), // Mr. Mime
    (Bug, Flying, [70, 110, 80, 105, 55]), // Scyther
    (Ice, Psychic, [65, 50, 35, 95, 95]), // Jynx
    (Electric, Electric, [65, 83, 57, 105, 85]), // Electabuzz
    (Fire, Fire, [65, 95, 57, 93, 85]), // Magmar
    (Bug, Bug, [65, 125, 100, 85, 55]), // Pinsir
    (Normal, Normal, [75, 100, 95, 110, 70]), // Tauros
    (Water, Water, [20, 10, 55, 80, 20]), // Magikarp
    (Water, Flying, [95, 125, 79, 81, 100]), // Gyarados
    (Water, Ice, [130, 85, 80, 60, 95]), // Lapras
    (Normal, Normal, [48, 48, 48, 48, 48]), // Ditto
    (Normal, Normal, [55, 55, 50, 55, 65]), // Eevee
    (Water, Water, [130, 65, 60, 65, 110]), // Vaporeon
    (Electric, Electric, [65, 65, 60, 130, 110]), // Jolteon
    (Fire, Fire, [65, 130, 60, 65, 110]), // Flareon
    (Normal, Normal, [65, 60, 70, 40, 75]), // Porygon
    (Rock, Water, [35, 40, 100, 35, 90]), // Omanyte
    (Rock, Water, [70, 60, 125, 55, 115]), // Omastar
    (Rock, Water, [30, 80, 90, 55, 45]), // Kabuto
    (Rock, Water, [60, 115, 105, 80, 70]), // Kabutops
    (Rock, Flying, [80, 105, 65, 130, 60]), // Aerodactyl
    (Normal, Normal, [160, 110, 65, 30, 65]), // Snorlax
    (Ice, Flying, [90, 85, 100, 85, 125]), // Articuno
    (Electric, Flying, [90, 90, 85, 100, 125]), // Zapdos
    (Fire, Flying, [90, 100, 90, 90, 125]), // Moltres
    (Dragon, Dragon, [41, 64, 45, 50, 50]), // Dratini
    (Dragon, Dragon, [61, 84, 65, 70, 70]), // Dragonair
    (Dragon, Flying, [91, 134, 95, 80, 100]), // Dragonite
    (Psychic, Psychic, [106, 110, 90, 130, 154]), // Mewtwo
    (Psychic, Psychic, [100, 100, 100, 100, 100]), // Mew
];

/// A species, by its number from 1 to 151 (docs/TABLES.md, "Species").
#[derive(Clone, Copy, PartialEq, Eq, Debug, Drop)]
pub struct Species {
    number: u8,
}

impl Model for Species {
    ghost Value = { ℕ };

    ghost view = { λ species. species.number };

    ghost invariant = { λ species. (1 ≤ species.number) × (species.number ≤ 151) };

    ghost inverse = { λ number. record { number = number } };
}

impl Default for Species {
    /// Bulbasaur, the first species.
    fn default() -> Self
        ensures { result ≡ 1 }
    {
        Species { number: 1 }
    }
}

impl Species {
    /// The species with a number. Returns `None` outside 1 to 151.
    pub fn new(number: u8) -> Option<Self>
        ensures { result ≡ (if nat_le 1 number && nat_le number 151 then Some number else None) }
    {
        if (1..=151).contains(&number) {
            Some(Species { number })
        } else {
            None
        }
    }

    /// The species with this name, which must match exactly. Returns `None` if no species has it.
    pub fn from_name(text: &str) -> Option<Self>
        ensures value { result ≡ species_named text.now }
        ensures found { IfSome result (λ number. species_name number ≡ text.now) }
        ensures known { (n : ℕ) → 1 ≤ n → n ≤ 151 → species_name n ≡ text.now → result ≡ Some n }
        ensures unknown { IsNone result ↔ ((n : ℕ) → 1 ≤ n → n ≤ 151 → species_name n ≢ text.now) }
    {
        place_of(species_names(), text).and_then(Self::new)
    }

    /// The species' number, 1 to 151.
    pub fn number(self) -> u8
        ensures value { result ≡ self }
        ensures low { 1 ≤ result }
        ensures high { result ≤ 151 }
    {
        self.number
    }

    /// The species' name.
    #[tactic(auto, unfolding(crate::specs::Names::species_name))]
    pub fn name(self) -> &'static str
        ensures { result.now ≡ species_name self }
    {
        name_at(species_names(), self.number)
    }

    /// Base HP, Attack, Defense, Speed and Special.
    pub fn base(self) -> [u8; 5]
        ensures { result ≡ base_of (species_row self) }
    {
        SPECIES_ROWS[self.number as usize - 1].2
    }

    /// The species' two types. A species of one type has it twice.
    pub fn types(self) -> [Element; 2]
        ensures { result ≡ types_of (species_row self) }
    {
        let row = &SPECIES_ROWS[self.number as usize - 1];
        [row.0, row.1]
    }
}
