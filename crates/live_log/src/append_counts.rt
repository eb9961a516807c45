//! A ledger of the appends of each engine number, and the rights to add to them.
ghost use Rattle.std.specs.Prelude.{◌≡◌, ◌≢◌, ◌+◌, ◌≤◌, ℕ};
ghost use Rattle.live_log.specs.AppendCounts.{number_of, count_of, parts_of, total_at, part_at, amount_at};

use crate::naming::{EngineLedger, Naming};
use crate::unnamed_ledgers::UnnamedLedgers;
use std::sync::ledger::{Book, Share};

/// The right to append as one of the engines.
#[derive(Drop)]
pub(crate) enum AppendRight<J: Naming> {
    One(Share<EngineLedger<J, 1>>),
    Two(Share<EngineLedger<J, 2>>),
    Three(Share<EngineLedger<J, 3>>),
    Four(Share<EngineLedger<J, 4>>),
    Five(Share<EngineLedger<J, 5>>),
    Six(Share<EngineLedger<J, 6>>),
    Seven(Share<EngineLedger<J, 7>>),
    Eight(Share<EngineLedger<J, 8>>),
    Nine(Share<EngineLedger<J, 9>>),
    Ten(Share<EngineLedger<J, 10>>),
    Eleven(Share<EngineLedger<J, 11>>),
    Twelve(Share<EngineLedger<J, 12>>),
    Thirteen(Share<EngineLedger<J, 13>>),
    Fourteen(Share<EngineLedger<J, 14>>),
    Fifteen(Share<EngineLedger<J, 15>>),
    Sixteen(Share<EngineLedger<J, 16>>),
}

/// The rights that no engine has yet.
#[derive(Drop)]
pub(crate) struct AppendRights<J: Naming> {
    one: Share<EngineLedger<J, 1>>,
    two: Share<EngineLedger<J, 2>>,
    three: Share<EngineLedger<J, 3>>,
    four: Share<EngineLedger<J, 4>>,
    five: Share<EngineLedger<J, 5>>,
    six: Share<EngineLedger<J, 6>>,
    seven: Share<EngineLedger<J, 7>>,
    eight: Share<EngineLedger<J, 8>>,
    nine: Share<EngineLedger<J, 9>>,
    ten: Share<EngineLedger<J, 10>>,
    eleven: Share<EngineLedger<J, 11>>,
    twelve: Share<EngineLedger<J, 12>>,
    thirteen: Share<EngineLedger<J, 13>>,
    fourteen: Share<EngineLedger<J, 14>>,
    fifteen: Share<EngineLedger<J, 15>>,
    sixteen: Share<EngineLedger<J, 16>>,
}

/// How much each engine appended.
#[derive(Drop)]
pub(crate) struct AppendCounts<J: Naming> {
    one: Book<EngineLedger<J, 1>>,
    two: Book<EngineLedger<J, 2>>,
    three: Book<EngineLedger<J, 3>>,
    four: Book<EngineLedger<J, 4>>,
    five: Book<EngineLedger<J, 5>>,
    six: Book<EngineLedger<J, 6>>,
    seven: Book<EngineLedger<J, 7>>,
    eight: Book<EngineLedger<J, 8>>,
    nine: Book<EngineLedger<J, 9>>,
    ten: Book<EngineLedger<J, 10>>,
    eleven: Book<EngineLedger<J, 11>>,
    twelve: Book<EngineLedger<J, 12>>,
    thirteen: Book<EngineLedger<J, 13>>,
    fourteen: Book<EngineLedger<J, 14>>,
    fifteen: Book<EngineLedger<J, 15>>,
    sixteen: Book<EngineLedger<J, 16>>,
}

impl UnnamedLedgers {
    ghost use Rattle.live_log.specs.UnnamedLedgers.{names_of};
    ghost use Rattle.std.specs.Prelude.{slice_index, ◌-◌};

    /// Opens the ledgers under the names of a log: no engine has appended, and no right is given away.
    pub(crate) fn open<J: Naming>(self) -> (AppendCounts<J>, AppendRights<J>)
        requires { (n : ℕ) → 1 ≤ n → n ≤ 16 → slice_index (names_of self) (n - 1) ≡ J.names n }
        ensures counts { (n : ℕ) → total_at result.0 n ≡ 0 }
        ensures rights { (n : ℕ) → 1 ≤ n → n ≤ 16 → (part_at result.1 n ≡ 1) × (amount_at result.1 n ≡ 0) }
    {
        let UnnamedLedgers {
            one,
            two,
            three,
            four,
            five,
            six,
            seven,
            eight,
            nine,
            ten,
            eleven,
            twelve,
            thirteen,
            fourteen,
            fifteen,
            sixteen,
        } = self;
        let (one, one_right) = one.open::<EngineLedger<J, 1>>();
        let (two, two_right) = two.open::<EngineLedger<J, 2>>();
        let (three, three_right) = three.open::<EngineLedger<J, 3>>();
        let (four, four_right) = four.open::<EngineLedger<J, 4>>();
        let (five, five_right) = five.open::<EngineLedger<J, 5>>();
        let (six, six_right) = six.open::<EngineLedger<J, 6>>();
        let (seven, seven_right) = seven.open::<EngineLedger<J, 7>>();
        let (eight, eight_right) = eight.open::<EngineLedger<J, 8>>();
        let (nine, nine_right) = nine.open::<EngineLedger<J, 9>>();
        let (ten, ten_right) = ten.open::<EngineLedger<J, 10>>();
        let (eleven, eleven_right) = eleven.open::<EngineLedger<J, 11>>();
        let (twelve, twelve_right) = twelve.open::<EngineLedger<J, 12>>();
        let (thirteen, thirteen_right) = thirteen.open::<EngineLedger<J, 13>>();
        let (fourteen, fourteen_right) = fourteen.open::<EngineLedger<J, 14>>();
        let (fifteen, fifteen_right) = fifteen.open::<EngineLedger<J, 15>>();
        let (sixteen, sixteen_right) = sixteen.open::<EngineLedger<J, 16>>();
        let counts = AppendCounts {
            one,
            two,
            three,
            four,
            five,
            six,
            seven,
            eight,
            nine,
            ten,
            eleven,
            twelve,
            thirteen,
            fourteen,
            fifteen,
            sixteen,
        };
        let rights = AppendRights {
            one: one_right,
            two: two_right,
            three: three_right,
            four: four_right,
            five: five_right,
            six: six_right,
            seven: seven_right,
            eight: eight_right,
            nine: nine_right,
            ten: ten_right,
            eleven: eleven_right,
            twelve: twelve_right,
            thirteen: thirteen_right,
            fourteen: fourteen_right,
            fifteen: fifteen_right,
            sixteen: sixteen_right,
        };
        (counts, rights)
    }
}

impl<J: Naming> AppendRights<J> {
    /// Gives away the right of a number.
    pub(crate) fn take(&mut self, number: u32) -> AppendRight<J>
        requires number { (1 ≤ number) × (number ≤ 16) }
        requires there { (part_at self.old number ≡ 1) × (amount_at self.old number ≡ 0) }
        ensures right { (number_of result ≡ number) × (parts_of result ≡ 1) × (count_of result ≡ 0) }
        ensures others { (n : ℕ) → n ≢ number → (part_at self.new n ≡ part_at self.old n) × (amount_at self.new n ≡ amount_at self.old n) }
    {
        match number {
            1 => AppendRight::One(self.one.split_off(1, 0)),
            2 => AppendRight::Two(self.two.split_off(1, 0)),
            3 => AppendRight::Three(self.three.split_off(1, 0)),
            4 => AppendRight::Four(self.four.split_off(1, 0)),
            5 => AppendRight::Five(self.five.split_off(1, 0)),
            6 => AppendRight::Six(self.six.split_off(1, 0)),
            7 => AppendRight::Seven(self.seven.split_off(1, 0)),
            8 => AppendRight::Eight(self.eight.split_off(1, 0)),
            9 => AppendRight::Nine(self.nine.split_off(1, 0)),
            10 => AppendRight::Ten(self.ten.split_off(1, 0)),
            11 => AppendRight::Eleven(self.eleven.split_off(1, 0)),
            12 => AppendRight::Twelve(self.twelve.split_off(1, 0)),
            13 => AppendRight::Thirteen(self.thirteen.split_off(1, 0)),
            14 => AppendRight::Fourteen(self.fourteen.split_off(1, 0)),
            15 => AppendRight::Fifteen(self.fifteen.split_off(1, 0)),
            16 => AppendRight::Sixteen(self.sixteen.split_off(1, 0)),
            _ => unreachable!(),
        }
    }
}

impl<J: Naming> AppendCounts<J> {
    /// Counts one more.
    pub(crate) fn add(&mut self, right: &mut AppendRight<J>)
        requires { parts_of right.old ≡ 1 }
        ensures right { (number_of right.new ≡ number_of right.old) × (parts_of right.new ≡ 1) × (count_of right.new ≡ count_of right.old + 1) }
        ensures counted { total_at self.new (number_of right.old) ≡ total_at self.old (number_of right.old) + 1 }
        ensures others { (n : ℕ) → n ≢ number_of right.old → total_at self.new n ≡ total_at self.old n }
    {
        match right {
            AppendRight::One(share) => self.one.add(share, 1),
            AppendRight::Two(share) => self.two.add(share, 1),
            AppendRight::Three(share) => self.three.add(share, 1),
            AppendRight::Four(share) => self.four.add(share, 1),
            AppendRight::Five(share) => self.five.add(share, 1),
            AppendRight::Six(share) => self.six.add(share, 1),
            AppendRight::Seven(share) => self.seven.add(share, 1),
            AppendRight::Eight(share) => self.eight.add(share, 1),
            AppendRight::Nine(share) => self.nine.add(share, 1),
            AppendRight::Ten(share) => self.ten.add(share, 1),
            AppendRight::Eleven(share) => self.eleven.add(share, 1),
            AppendRight::Twelve(share) => self.twelve.add(share, 1),
            AppendRight::Thirteen(share) => self.thirteen.add(share, 1),
            AppendRight::Fourteen(share) => self.fourteen.add(share, 1),
            AppendRight::Fifteen(share) => self.fifteen.add(share, 1),
            AppendRight::Sixteen(share) => self.sixteen.add(share, 1),
        }
    }

    /// How much was counted under the number of the right.
    pub(crate) fn audit(&mut self, right: &mut AppendRight<J>)
        requires { parts_of right.old ≡ 1 }
        ensures right { (number_of right.new ≡ number_of right.old) × (parts_of right.new ≡ 1) × (count_of right.new ≡ count_of right.old) }
        ensures exact { count_of right.old ≡ total_at self.old (number_of right.old) }
        ensures same { (n : ℕ) → total_at self.new n ≡ total_at self.old n }
    {
        match right {
            AppendRight::One(share) => self.one.audit(share),
            AppendRight::Two(share) => self.two.audit(share),
            AppendRight::Three(share) => self.three.audit(share),
            AppendRight::Four(share) => self.four.audit(share),
            AppendRight::Five(share) => self.five.audit(share),
            AppendRight::Six(share) => self.six.audit(share),
            AppendRight::Seven(share) => self.seven.audit(share),
            AppendRight::Eight(share) => self.eight.audit(share),
            AppendRight::Nine(share) => self.nine.audit(share),
            AppendRight::Ten(share) => self.ten.audit(share),
            AppendRight::Eleven(share) => self.eleven.audit(share),
            AppendRight::Twelve(share) => self.twelve.audit(share),
            AppendRight::Thirteen(share) => self.thirteen.audit(share),
            AppendRight::Fourteen(share) => self.fourteen.audit(share),
            AppendRight::Fifteen(share) => self.fifteen.audit(share),
            AppendRight::Sixteen(share) => self.sixteen.audit(share),
        }
    }
}
