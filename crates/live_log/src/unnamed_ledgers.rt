//! Ledgers that have no name yet.
ghost use Rattle.std.specs.Prelude.{◌≡◌};

use std::sync::ledger::Blank;

/// Ledgers that have no name yet.
#[derive(Drop)]
pub(crate) struct UnnamedLedgers {
    pub(crate) one: Blank,
    pub(crate) two: Blank,
    pub(crate) three: Blank,
    pub(crate) four: Blank,
    pub(crate) five: Blank,
    pub(crate) six: Blank,
    pub(crate) seven: Blank,
    pub(crate) eight: Blank,
    pub(crate) nine: Blank,
    pub(crate) ten: Blank,
    pub(crate) eleven: Blank,
    pub(crate) twelve: Blank,
    pub(crate) thirteen: Blank,
    pub(crate) fourteen: Blank,
    pub(crate) fifteen: Blank,
    pub(crate) sixteen: Blank,
    ghost whole: { (one.parts ≡ 1) × (two.parts ≡ 1) × (three.parts ≡ 1) × (four.parts ≡ 1) × (five.parts ≡ 1) × (six.parts ≡ 1) × (seven.parts ≡ 1) × (eight.parts ≡ 1) × (nine.parts ≡ 1) × (ten.parts ≡ 1) × (eleven.parts ≡ 1) × (twelve.parts ≡ 1) × (thirteen.parts ≡ 1) × (fourteen.parts ≡ 1) × (fifteen.parts ≡ 1) × (sixteen.parts ≡ 1) },
}

impl UnnamedLedgers {
    pub(crate) fn new() -> UnnamedLedgers {
        UnnamedLedgers {
            one: Blank::new(1),
            two: Blank::new(1),
            three: Blank::new(1),
            four: Blank::new(1),
            five: Blank::new(1),
            six: Blank::new(1),
            seven: Blank::new(1),
            eight: Blank::new(1),
            nine: Blank::new(1),
            ten: Blank::new(1),
            eleven: Blank::new(1),
            twelve: Blank::new(1),
            thirteen: Blank::new(1),
            fourteen: Blank::new(1),
            fifteen: Blank::new(1),
            sixteen: Blank::new(1),
        }
    }
}
