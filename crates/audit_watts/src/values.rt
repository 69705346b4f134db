//! What is kept of a reply.

ghost use Rattle.std.specs.Prelude.{◌≡◌, ◌↔◌, ◌<◌, ℕ, zero, max, true, ◌&&◌, ◌∷◌, Some, None, IsTrue, pos, negsuc};
ghost use Rattle.session_words.specs.Amounts.{IsMultiplier};
ghost use Rattle.told_pasts.specs.Spelling as spelling;
ghost use Rattle.told_pasts.specs.Spelling.{SpelledWatts, Writes, WritesCurrent, WritesSchedule};
ghost use Rattle.audit_watts.specs.Values.{written_of, no_watts, AreOf};

use charge_world::Dialect;
use session_words::{Amount, PostPlan, ac_current, ac_watts, written_watts};

/// A physical value as a message writes it: Value times ten to the Multiplier. A PMax of DIN has Multiplier 0.
#[derive(Clone, Copy)]
pub struct WrittenValue {
    /// -3 to 3.
    pub multiplier: i8,
    pub value: i16,
}

/// What is kept of the watts of a reply.
#[derive(Clone, Copy)]
pub struct WattValues {
    /// The greatest of them: 0 of none.
    pub most: u64,
    /// Each writes the watts that the post was told.
    pub told: bool,
}

impl WrittenValue {
    /// The watts that it is.
    fn watts(self) -> u64
        requires { IsMultiplier self.multiplier }
        ensures { result ≡ spelling.watts_of (written_of self) }
    {
        u64::from(Amount::in_units(self.multiplier, self.value, true).size)
    }

    /// Whether it is this number with this Multiplier.
    fn is(self, multiplier: u8, value: u16) -> bool
        ensures { IsTrue result ↔ (written_of self ≡ record { multiplier = pos multiplier; value = pos value }) }
    {
        i32::from(self.multiplier) == i32::from(multiplier)
            && i32::from(self.value) == i32::from(value)
    }

    /// Whether it writes these watts: by the least Multiplier from 0 by which they fit.
    fn writes(self, told: u32) -> bool
        requires { told < 32768000 }
        ensures { IsTrue result ↔ Writes told (written_of self) }
    {
        let written = written_watts(told);
        self.is(written.multiplier, written.value)
    }

    /// Whether it writes the current of these watts at a post.
    fn writes_current(self, plan: &PostPlan, told: u32) -> bool
        requires { 0 < plan.now.nominal }
        ensures { IsTrue result ↔ WritesCurrent plan.now told (written_of self) }
    {
        let current = ac_current(told, plan.nominal, plan.mode.phases());
        self.is_current(current.get())
    }

    /// Whether it is this current in tenths.
    fn is_current(self, tenths: u16) -> bool
        ensures { IsTrue result ↔ (written_of self ≡ record { multiplier = negsuc 0; value = pos tenths }) }
    {
        i32::from(self.multiplier) == -1 && i32::from(self.value) == i32::from(tenths)
    }

    /// Whether it writes these watts in a schedule.
    fn writes_schedule(self, spoken: Dialect, told: u32) -> bool
        requires { told < 32768000 }
        ensures { IsTrue result ↔ WritesSchedule spoken told (written_of self) }
    {
        match spoken {
            Dialect::Iso => self.writes(told),
            Dialect::Din => self.is(0, 32_767.min(told) as u16),
        }
    }

    /// The watts of a current at a post.
    fn current_watts(self, plan: &PostPlan) -> u64
        requires { IsMultiplier self.multiplier }
        ensures { result ≡ spelling.current_in plan.now (Some (written_of self)) }
    {
        let current = Amount::in_tenths(self.multiplier, self.value, true);
        ac_watts(current.size, plan.nominal, plan.mode.phases())
    }
}

impl WattValues {
    /// Of no watts.
    pub fn new() -> WattValues
        ensures { (plan : PostPlan) (spoken : Dialect) (told : ℕ) → AreOf plan spoken told no_watts result }
    {
        WattValues {
            most: 0,
            told: true,
        }
    }

    /// With a value that is so many watts, and writes those that were told, or doesn't.
    fn with(self, watts: u64, writes: bool) -> WattValues
        ensures { result ≡ record { most = max self.most watts; told = self.told && writes } }
    {
        WattValues {
            most: self.most.max(watts),
            told: self.told && writes,
        }
    }

    /// With EVSEMaximumPowerLimit, where the post was told these watts.
    pub fn with_power(self, told: u32, power: WrittenValue) -> WattValues
        requires told { told < 32768000 }
        requires multiplier { IsMultiplier power.multiplier }
        ensures { (plan : PostPlan) (spoken : Dialect) (s : SpelledWatts) → s.power ≡ None → AreOf plan spoken told s self
            → AreOf plan spoken told (record s { power = Some (written_of power) }) result }
    {
        self.with(power.watts(), power.writes(told))
    }

    /// With EVSEMaxCurrent.
    pub fn with_current(self, plan: &PostPlan, told: u32, current: WrittenValue) -> WattValues
        requires nominal { 0 < plan.now.nominal }
        requires multiplier { IsMultiplier current.multiplier }
        ensures { (spoken : Dialect) (s : SpelledWatts) → s.current ≡ None → AreOf plan.now spoken told s self
            → AreOf plan.now spoken told (record s { current = Some (written_of current) }) result }
    {
        self.with(
            current.current_watts(plan),
            current.writes_current(plan, told),
        )
    }

    /// With a PMax of a schedule.
    pub fn with_p_max(self, spoken: Dialect, told: u32, p_max: WrittenValue) -> WattValues
        requires told { told < 32768000 }
        requires multiplier { IsMultiplier p_max.multiplier }
        ensures { (plan : PostPlan) (s : SpelledWatts) → AreOf plan spoken told s self
            → AreOf plan spoken told (record s { p_max = written_of p_max ∷ s.p_max }) result }
    {
        self.with(p_max.watts(), p_max.writes_schedule(spoken, told))
    }
}
