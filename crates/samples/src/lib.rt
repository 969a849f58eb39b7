//! Worked inputs that the tests of several crates use.
#![tactic(auto)]

/// The head of the round of 16 of the Champions League of 2021/22, as in `examples/`: the winners of
/// the first-round groups A to H, which have the places 0 to 7, and the runners-up, which have the
/// places 8 to 15.
pub const ROUND_OF_16: &str =
    r#"{"kind":"pairing","teams":[{"code":"MCI","pot":1,"tags":["ENG"],"group":"A"},{"code":"LIV","pot":1,"tags":["ENG"],"group":"B"},{"code":"AJX","pot":1,"tags":["NED"],"group":"C"},{"code":"RMA","pot":1,"tags":["ESP"],"group":"D"},{"code":"BAY","pot":1,"tags":["GER"],"group":"E"},{"code":"MUN","pot":1,"tags":["ENG"],"group":"F"},{"code":"LIL","pot":1,"tags":["FRA"],"group":"G"},{"code":"JUV","pot":1,"tags":["ITA"],"group":"H"},{"code":"PSG","pot":2,"tags":["FRA"],"group":"A"},{"code":"ATM","pot":2,"tags":["ESP"],"group":"B"},{"code":"SCP","pot":2,"tags":["POR"],"group":"C"},{"code":"INT","pot":2,"tags":["ITA"],"group":"D"},{"code":"BEN","pot":2,"tags":["POR"],"group":"E"},{"code":"VIL","pot":2,"tags":["ESP"],"group":"F"},{"code":"RBS","pot":2,"tags":["AUT"],"group":"G"},{"code":"CHE","pot":2,"tags":["ENG"],"group":"H"}]}"#;

/// The head of a draw of two teams that may meet: the winner AAA, and the runner-up BBB.
pub const TWO_TEAMS: &str =
    r#"{"kind":"pairing","teams":[{"code":"AAA","pot":1,"tags":["X"],"group":"A"},{"code":"BBB","pot":2,"tags":["Y"],"group":"B"}]}"#;

/// Ten count rules over the atoms 0 to 7, each its atoms, all positive, its least and its greatest
/// number of true ones. Two pots of two teams in two groups; the atom of team i in group k is
/// 2 * i + k. Each team stands in one group, in each group stands one team of each pot, and in each
/// group at most one team. No assignment satisfies all ten; the first eight can be met.
pub const CLASH: [(&[u32], u32, u32); 10] = [
    (&[0, 1], 1, 1),
    (&[2, 3], 1, 1),
    (&[4, 5], 1, 1),
    (&[6, 7], 1, 1),
    (&[0, 2], 1, 1),
    (&[4, 6], 1, 1),
    (&[1, 3], 1, 1),
    (&[5, 7], 1, 1),
    (&[0, 2, 4, 6], 0, 1),
    (&[1, 3, 5, 7], 0, 1),
];
