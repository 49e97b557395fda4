// One channel's part of a round.
ghost use Rattle.std.specs.Prelude.{◌≡◌};
ghost use Rattle.table.specs.Round as Round;
ghost use Rattle.table.specs.Round.{over, excess_of, kills, trips, shut_off, findings_of, found_events, judged, goal_of, moved_level, ramped, level_after, channel_after};

use crate::channel::bit;
use crate::records::{Amounts, Channel, Conditions, Findings, Flags, Table};
use values::{
    Model, at_most, limit, limit_steps, out_of_bounds, ramp_step, set_steps, stored_maximum,
};

// The reading of one channel, in volts and amperes, and whether its inhibit line is low.
#[derive(Clone, Copy, Debug, PartialEq)]
pub struct Reading {
    pub voltage: f32,
    pub current: f32,
    pub inhibit_low: bool,
}

// What a round fixes for every channel.
#[derive(Clone, Copy, Debug, PartialEq)]
pub struct Pass {
    pub model: Model,
    pub kill_enable: bool,
    // whether the stage regulates current
    pub regulates: bool,
    pub loop_closed: bool,
    // a module event passes the module's mask
    pub module_passes: bool,
    // VoltageLimit and CurrentLimit
    pub limits: Amounts,
    pub limit_steps: u32,
    pub ramp_step: u32,
}

// Which limits a reading is over.
#[derive(Clone, Copy, Debug, PartialEq, Eq)]
pub struct Excess {
    pub voltage_limit: bool,
    pub current_limit: bool,
    pub current_set: bool,
}

// Not a number is over every limit.
fn is_over(reading: f32, limit: f32) -> bool
    ensures { result ≡ over reading limit }
{
    !at_most(reading, limit)
}

impl Excess {
    // With KillEnable on, any of the three stores a kill.
    fn kills(&self, pass: &Pass) -> bool
        ensures { result ≡ kills pass.now self.now }
    {
        pass.kill_enable & (self.voltage_limit | (self.current_limit | self.current_set))
    }

    // A kill now, or current over CurrentSet with KillEnable off on a stage that does not regulate.
    fn trips(&self, pass: &Pass) -> bool
        ensures { result ≡ trips pass.now self.now }
    {
        self.kills(pass) | (self.current_set & (!pass.kill_enable & !pass.regulates))
    }
}

// The events of what was found: 15, 14 and 12 to 10, 7 and 6 follow the status; ETRIP follows a trip; EEMCY follows isEMCY.
fn found_events(findings: &Findings, tripped: bool, emergency: bool) -> u16
    ensures { result ≡ found_events findings.now tripped emergency }
{
    bit(findings.over.voltage, 0x8000)
        + bit(findings.over.current, 0x4000)
        + bit(tripped, 0x2000)
        + bit(findings.inhibited, 0x1000)
        + bit(findings.outside.voltage, 0x0800)
        + bit(findings.outside.current, 0x0400)
        + bit(findings.control.voltage, 0x0080)
        + bit(findings.control.current, 0x0040)
        + bit(emergency, 0x0020)
}

// A higher level falls by the ramp step, but not below the goal; a lower one rises likewise unless the channel is blocked.
fn moved_level(level: u32, goal: u32, ramp_step: u32, blocked: bool) -> u32
    ensures { result ≡ moved_level level goal ramp_step blocked }
{
    if goal < level {
        level - ramp_step.min(level - goal)
    } else if blocked {
        level
    } else {
        level + ramp_step.min(goal - level)
    }
}

impl Channel {
    // In all of these a reading is the channel's own and a pass the round's, so the two are not one parameter.
    fn excess(&self, reading: &Reading, pass: &Pass) -> Excess
        ensures { result ≡ excess_of pass.now self.now reading.now }
    {
        Excess {
            voltage_limit: is_over(reading.voltage, pass.limits.voltage),
            current_limit: is_over(reading.current, pass.limits.current),
            current_set: is_over(reading.current, self.setpoint.current),
        }
    }

    // What the round finds of a channel that is then on or off.
    fn findings(&self, reading: &Reading, pass: &Pass, excess: &Excess, on: bool) -> Findings
        ensures { result ≡ findings_of pass.now self.now reading.now excess.now on }
    {
        let limiting = on & (!pass.kill_enable & excess.current_set);
        let voltage_outside = out_of_bounds(
            reading.voltage,
            self.setpoint.voltage,
            self.bounds.voltage,
        );
        let current_outside = out_of_bounds(
            reading.current,
            self.setpoint.current,
            self.bounds.current,
        );
        Findings {
            over: Flags {
                voltage: !pass.kill_enable & excess.voltage_limit,
                current: !pass.kill_enable & excess.current_limit,
            },
            inhibited: reading.inhibit_low,
            outside: Flags {
                voltage: on & (!self.ramping & voltage_outside),
                current: on & current_outside,
            },
            control: Flags {
                voltage: on & !limiting,
                current: limiting,
            },
        }
    }

    // The set voltage becomes 0 where the loop is open.
    fn keep_setpoint(&mut self, pass: &Pass)
        ensures { self.new ≡ Round.kept_setpoint pass.now self.old }
    {
        if !pass.loop_closed {
            self.setpoint.voltage = 0.0;
        }
    }

    // A reading is plain, two numbers and the line, so its amounts are no record that could be copied whole.
    fn store_reading(&mut self, reading: &Reading)
        ensures { self.new ≡ Round.with_reading self.old reading.now }
    {
        self.measured = Amounts {
            voltage: reading.voltage,
            current: reading.current,
        };
    }

    // The loop is closed, the inhibit line is high, nothing is over a limit, and no bounds are set.
    fn undisturbed(&self, reading: &Reading, pass: &Pass, excess: &Excess) -> bool
        ensures { result ≡ Round.undisturbed pass.now self.now reading.now excess.now }
    {
        pass.loop_closed
            && !reading.inhibit_low
            && !excess.voltage_limit
            && !excess.current_limit
            && !excess.current_set
            && !(0.0 < self.bounds.voltage)
            && !(0.0 < self.bounds.current)
    }

    // What a round makes of an undisturbed channel whose reading is stored: it stays as it is, and regulates voltage if it is on,
    // which sets ECV; isEMCY sets EEMCY.
    fn settle(&mut self)
        ensures { self.new ≡ Round.settled self.old }
    {
        self.findings = Findings {
            control: Flags {
                voltage: self.on,
                current: false,
            },
            ..Findings::default()
        };
        self.events |= bit(self.on, 0x0080) + bit(self.emergency, 0x0020);
    }

    // Everything but the level and the ramp: whether the channel was shut off.
    fn judge(&mut self, reading: &Reading, pass: &Pass) -> bool
        ensures state { self.new ≡ judged pass.now self.old reading.now }
        ensures shut { result ≡ shut_off pass.now self.old reading.now }
    {
        let excess = self.excess(reading, pass);
        self.store_reading(reading);
        // Most channels of most rounds: no other flag has to be worked out.
        if self.undisturbed(reading, pass, &excess) {
            self.settle();
            return false;
        }
        let tripped = excess.trips(pass);
        let shut = !pass.loop_closed | (reading.inhibit_low | tripped);
        let on = self.on & !shut;
        self.keep_setpoint(pass);
        let findings = self.findings(reading, pass, &excess, on);
        self.events = self.events
            | bit(self.on & !on, 0x0008)
            | found_events(&findings, tripped, self.emergency);
        self.findings = findings;
        self.kill = self.kill | excess.kills(pass);
        self.on = on;
        shut
    }

    // The level that the channel is to reach: 0 if it is off.
    fn goal(&self, pass: &Pass) -> u32
        ensures { result ≡ goal_of pass.now self.now }
    {
        if self.on {
            set_steps(self.setpoint.voltage, pass.model).min(pass.limit_steps)
        } else {
            0
        }
    }

    // The level is cut to the limit and moved; isRAMP and the end of a ramp follow.
    fn ramp(&mut self, pass: &Pass, level: u32, shut: bool) -> u32
        ensures state { self.new ≡ ramped pass.now self.old level shut }
        ensures level { result ≡ Round.ramp_level pass.now self.old level }
    {
        let goal = self.goal(pass);
        let moved = moved_level(
            level.min(pass.limit_steps),
            goal,
            pass.ramp_step,
            self.blocked(pass.module_passes),
        );
        let ramping = moved != goal;
        self.events |= bit(self.ramping & (!ramping & !shut), 0x0010);
        self.ramping = ramping;
        moved
    }

    // One round of a channel whose stage stands at `level`: the answer is the level to drive it to.
    pub fn pass(&mut self, reading: &Reading, pass: &Pass, level: u32) -> u32
        ensures state { self.new ≡ channel_after pass.now self.old reading.now level }
        ensures level { result ≡ level_after pass.now self.old reading.now level }
    {
        let shut = self.judge(reading, pass);
        let start = if shut { 0 } else { level };
        self.ramp(pass, start, shut)
    }
}

impl Table {
    // The conditions are stored, and what is not good sets its module event.
    pub fn begin_round(&mut self, conditions: &Conditions)
        ensures { self.new ≡ Round.begun self.old conditions.now }
    {
        self.conditions = Conditions {
            maxima: Amounts {
                voltage: stored_maximum(conditions.maxima.voltage),
                current: stored_maximum(conditions.maxima.current),
            },
            ..*conditions
        };
        self.events |= bit(!conditions.temperature_good(), 0x4000)
            + bit(!conditions.supply_good, 0x2000)
            + bit(!conditions.loop_closed, 0x0400);
    }

    // What the round that has begun fixes for every channel, over a stage that regulates current or does not.
    pub fn fix_round(&self, regulates: bool) -> Pass
        ensures { result ≡ Round.pass_of regulates self.now }
    {
        let maxima = self.conditions.maxima;
        Pass {
            model: self.model,
            kill_enable: self.kill_enable,
            regulates,
            loop_closed: self.conditions.loop_closed,
            module_passes: self.module_passes(),
            limits: Amounts {
                voltage: limit(self.model.nominal_voltage(), maxima.voltage),
                current: limit(self.model.nominal_current(), maxima.current),
            },
            limit_steps: limit_steps(maxima.voltage),
            ramp_step: ramp_step(self.speed),
        }
    }
}
