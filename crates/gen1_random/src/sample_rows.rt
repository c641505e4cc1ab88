//! The members of the sample teams. Made by tools/gen; change examples/teams, not this.

// The species and the moves of each member, by their numbers. A team has six rows.
pub(crate) static SAMPLE_ROWS: [(u8, [u8; 4]); 72] = [
    (65, [94, 69, 86, 105]), // Alakazam: Psychic, Seismic Toss, Thunder Wave, Recover
    (145, [85, 65, 86, 97]), // Zapdos: Thunderbolt, Drill Peck, Thunder Wave, Agility
    (103, [79, 94, 78, 153]), // Exeggutor: Sleep Powder, Psychic, Stun Spore, Explosion
    (113, [115, 58, 86, 135]), // Chansey: Reflect, Ice Beam, Thunder Wave, Soft-Boiled
    (143, [34, 63, 89, 120]), // Snorlax: Body Slam, Hyper Beam, Earthquake, Self-Destruct
    (128, [34, 63, 89, 59]), // Tauros: Body Slam, Hyper Beam, Earthquake, Blizzard
    (131, [59, 85, 109, 156]), // Lapras: Blizzard, Thunderbolt, Confuse Ray, Rest
    (113, [115, 58, 86, 135]), // Chansey: Reflect, Ice Beam, Thunder Wave, Soft-Boiled
    (80, [133, 57, 86, 156]), // Slowbro: Amnesia, Surf, Thunder Wave, Rest
    (121, [57, 85, 86, 105]), // Starmie: Surf, Thunderbolt, Thunder Wave, Recover
    (143, [34, 115, 58, 156]), // Snorlax: Body Slam, Reflect, Ice Beam, Rest
    (145, [85, 65, 86, 156]), // Zapdos: Thunderbolt, Drill Peck, Thunder Wave, Rest
    (94, [95, 101, 85, 153]), // Gengar: Hypnosis, Night Shade, Thunderbolt, Explosion
    (91, [59, 128, 63, 153]), // Cloyster: Blizzard, Clamp, Hyper Beam, Explosion
    (103, [79, 94, 38, 153]), // Exeggutor: Sleep Powder, Psychic, Double-Edge, Explosion
    (76, [89, 157, 34, 153]), // Golem: Earthquake, Rock Slide, Body Slam, Explosion
    (143, [34, 63, 89, 120]), // Snorlax: Body Slam, Hyper Beam, Earthquake, Self-Destruct
    (128, [34, 63, 89, 59]), // Tauros: Body Slam, Hyper Beam, Earthquake, Blizzard
    (94, [95, 101, 85, 153]), // Gengar: Hypnosis, Night Shade, Thunderbolt, Explosion
    (113, [58, 85, 86, 135]), // Chansey: Ice Beam, Thunderbolt, Thunder Wave, Soft-Boiled
    (112, [89, 157, 34, 164]), // Rhydon: Earthquake, Rock Slide, Body Slam, Substitute
    (121, [57, 85, 86, 105]), // Starmie: Surf, Thunderbolt, Thunder Wave, Recover
    (143, [133, 34, 59, 156]), // Snorlax: Amnesia, Body Slam, Blizzard, Rest
    (128, [34, 63, 89, 59]), // Tauros: Body Slam, Hyper Beam, Earthquake, Blizzard
    (124, [142, 94, 59, 156]), // Jynx: Lovely Kiss, Psychic, Blizzard, Rest
    (121, [57, 85, 86, 105]), // Starmie: Surf, Thunderbolt, Thunder Wave, Recover
    (103, [79, 94, 38, 153]), // Exeggutor: Sleep Powder, Psychic, Double-Edge, Explosion
    (113, [58, 85, 86, 135]), // Chansey: Ice Beam, Thunderbolt, Thunder Wave, Soft-Boiled
    (143, [34, 115, 58, 156]), // Snorlax: Body Slam, Reflect, Ice Beam, Rest
    (128, [34, 63, 89, 59]), // Tauros: Body Slam, Hyper Beam, Earthquake, Blizzard
    (150, [133, 94, 59, 105]), // Mewtwo: Amnesia, Psychic, Blizzard, Recover
    (144, [59, 97, 63, 156]), // Articuno: Blizzard, Agility, Hyper Beam, Rest
    (145, [85, 65, 86, 97]), // Zapdos: Thunderbolt, Drill Peck, Thunder Wave, Agility
    (146, [83, 97, 126, 63]), // Moltres: Fire Spin, Agility, Fire Blast, Hyper Beam
    (130, [56, 59, 85, 34]), // Gyarados: Hydro Pump, Blizzard, Thunderbolt, Body Slam
    (131, [59, 85, 34, 47]), // Lapras: Blizzard, Thunderbolt, Body Slam, Sing
    (97, [95, 94, 86, 156]), // Hypno: Hypnosis, Psychic, Thunder Wave, Rest
    (125, [85, 94, 86, 69]), // Electabuzz: Thunderbolt, Psychic, Thunder Wave, Seismic Toss
    (85, [65, 34, 63, 97]), // Dodrio: Drill Peck, Body Slam, Hyper Beam, Agility
    (134, [57, 59, 34, 156]), // Vaporeon: Surf, Blizzard, Body Slam, Rest
    (68, [66, 34, 89, 63]), // Machamp: Submission, Body Slam, Earthquake, Hyper Beam
    (137, [85, 59, 86, 105]), // Porygon: Thunderbolt, Blizzard, Thunder Wave, Recover
    (53, [163, 61, 85, 63]), // Persian: Slash, Bubble Beam, Thunderbolt, Hyper Beam
    (51, [89, 157, 163, 164]), // Dugtrio: Earthquake, Rock Slide, Slash, Substitute
    (115, [34, 89, 157, 63]), // Kangaskhan: Body Slam, Earthquake, Rock Slide, Hyper Beam
    (112, [89, 157, 34, 164]), // Rhydon: Earthquake, Rock Slide, Body Slam, Substitute
    (143, [34, 63, 89, 120]), // Snorlax: Body Slam, Hyper Beam, Earthquake, Self-Destruct
    (128, [34, 63, 89, 59]), // Tauros: Body Slam, Hyper Beam, Earthquake, Blizzard
    (121, [94, 59, 86, 105]), // Starmie: Psychic, Blizzard, Thunder Wave, Recover
    (103, [79, 94, 78, 153]), // Exeggutor: Sleep Powder, Psychic, Stun Spore, Explosion
    (65, [94, 69, 86, 105]), // Alakazam: Psychic, Seismic Toss, Thunder Wave, Recover
    (113, [58, 85, 86, 135]), // Chansey: Ice Beam, Thunderbolt, Thunder Wave, Soft-Boiled
    (143, [34, 115, 58, 156]), // Snorlax: Body Slam, Reflect, Ice Beam, Rest
    (128, [34, 63, 89, 59]), // Tauros: Body Slam, Hyper Beam, Earthquake, Blizzard
    (3, [79, 75, 14, 34]), // Venusaur: Sleep Powder, Razor Leaf, Swords Dance, Body Slam
    (6, [14, 126, 89, 163]), // Charizard: Swords Dance, Fire Blast, Earthquake, Slash
    (9, [57, 59, 34, 156]), // Blastoise: Surf, Blizzard, Body Slam, Rest
    (26, [85, 86, 34, 63]), // Raichu: Thunderbolt, Thunder Wave, Body Slam, Hyper Beam
    (34, [89, 85, 59, 157]), // Nidoking: Earthquake, Thunderbolt, Blizzard, Rock Slide
    (18, [143, 38, 98, 97]), // Pidgeot: Sky Attack, Double-Edge, Quick Attack, Agility
    (3, [79, 75, 14, 34]), // Venusaur: Sleep Powder, Razor Leaf, Swords Dance, Body Slam
    (6, [14, 126, 89, 163]), // Charizard: Swords Dance, Fire Blast, Earthquake, Slash
    (99, [14, 152, 34, 63]), // Kingler: Swords Dance, Crabhammer, Body Slam, Hyper Beam
    (141, [14, 57, 163, 63]), // Kabutops: Swords Dance, Surf, Slash, Hyper Beam
    (73, [14, 57, 59, 63]), // Tentacruel: Swords Dance, Surf, Blizzard, Hyper Beam
    (71, [14, 79, 75, 63]), // Victreebel: Swords Dance, Sleep Powder, Razor Leaf, Hyper Beam
    (135, [85, 86, 24, 156]), // Jolteon: Thunderbolt, Thunder Wave, Double Kick, Rest
    (149, [97, 35, 63, 59]), // Dragonite: Agility, Wrap, Hyper Beam, Blizzard
    (71, [79, 35, 75, 78]), // Victreebel: Sleep Powder, Wrap, Razor Leaf, Stun Spore
    (91, [59, 128, 63, 153]), // Cloyster: Blizzard, Clamp, Hyper Beam, Explosion
    (38, [126, 83, 109, 34]), // Ninetales: Fire Blast, Fire Spin, Confuse Ray, Body Slam
    (73, [35, 57, 59, 63]), // Tentacruel: Wrap, Surf, Blizzard, Hyper Beam
];
