// Settings read back from what a settings run sent. src/seq.rs has nothing of the kind.
#![tactic(auto)]

ghost use Rattle.std.specs.Prelude.{◌≡◌};
ghost use Rattle.settings_sends.specs.ReadBack.{number, command_in, what, commits, cal_answered, run_or_refused, answered};
ghost use Rattle.settings_sends.specs.Inverse.{Inverse};
ghost use Rattle.settings_sends.specs.Ran.{Ran};

use protocol::{Action, BusAddr, Command, ModeSet, ParamValue, RadarCal};
use settings::{AvrSettings, MAX_PARAMS};

/// Why no settings are given.
#[derive(Clone, Copy, PartialEq, Eq)]
pub enum SendsRefusal {
    /// No settings that a run accepts send these commands.
    OfNoSettings = 8,
}

impl SendsRefusal {
    /// Its number among all refusals.
    pub fn number(self) -> u8
        ensures { result ≡ number self }
    {
        self as u8
    }
}

// The command of a send that goes to the AVR with no bytes beside it: of another send, none.
fn command_in(action: Action) -> Option<Command>
    ensures { result ≡ command_in action }
{
    let plain = action.dest == BusAddr::Avr
        && action.payload == [0u8; 10]
        && action.tail == [0u8; 2];
    if plain { Some(action.command) } else { None }
}

// What a send sets, once its commit has followed. The calibration is read by itself, since it can only be the last.
#[derive(Clone, Copy)]
enum Setting {
    Param(ParamValue),
    Mode(ModeSet),
    Other,
}

fn what(action: Action) -> Setting
    ensures { result ≡ what (command_in action) }
{
    match command_in(action) {
        Some(Command::ParamValue(param)) => Setting::Param(param),
        Some(Command::ModeSet(mode)) => Setting::Mode(mode),
        _ => Setting::Other,
    }
}

fn is_commit(action: Action) -> bool
    ensures { result ≡ commits (command_in action) }
{
    match command_in(action) {
        Some(Command::AvrConfigCmd(config)) => !config.arm,
        _ => false,
    }
}

// What follows the mode and its commit: a calibration and a commit, or nothing.
fn read_cal(sends: &[Action]) -> Result<Option<RadarCal>, SendsRefusal>
    ensures { result ≡ cal_answered sends.now }
{
    match sends {
        [] => Ok(None),
        [cal, commit] if is_commit(*commit) => match command_in(*cal) {
            Some(Command::RadarCal(cal)) => Ok(Some(cal)),
            _ => Err(SendsRefusal::OfNoSettings),
        },
        _ => Err(SendsRefusal::OfNoSettings),
    }
}

// Settings that no run accepts are refused.
fn run_or_refused(settings: AvrSettings) -> Result<AvrSettings, SendsRefusal>
    ensures { result ≡ run_or_refused settings }
{
    if MAX_PARAMS < settings.len || settings.has_repeat() {
        return Err(SendsRefusal::OfNoSettings);
    }
    Ok(settings)
}

/// The settings of the run that sent these, in their order and from the commit of `new` on. They are as a run stores them: an absent
/// calibration is `None`, and unused places have id 0 and the whole number 0. Floats are moved, so they keep their bits.
/// Refused with 8 where no settings that a run accepts send exactly these, so also where a send is missing, is one too many or goes elsewhere.
pub fn settings_of(sends: &[Action]) -> Result<AvrSettings, SendsRefusal>
    ensures { result ≡ answered sends.now }
{
    if sends.is_empty() || !is_commit(sends[0]) {
        return Err(SendsRefusal::OfNoSettings);
    }
    let mut params = AvrSettings::mode_only(0).params;
    let mut len = 0;
    let mut at = 1;
    while 1 < sends.len() - at {
        if !is_commit(sends[at + 1]) {
            return Err(SendsRefusal::OfNoSettings);
        }
        match what(sends[at]) {
            Setting::Param(param) if len < MAX_PARAMS => {
                params[len] = param;
                len += 1;
                at += 2;
            }
            Setting::Mode(mode) => {
                return match read_cal(&sends[at + 2..]) {
                    Ok(radar_cal) => run_or_refused(AvrSettings {
                        mode: mode.mode,
                        params,
                        len,
                        radar_cal,
                    }),
                    Err(refusal) => Err(refusal),
                };
            }
            // a 33rd parameter, and what is no setting
            Setting::Param(_) | Setting::Other => return Err(SendsRefusal::OfNoSettings),
        }
    }
    Err(SendsRefusal::OfNoSettings)
}

/// Reading sends is the inverse of what a settings run sends, and 8 is given exactly where no settings that a run accepts send them.
pub fn reading_is_the_inverse()
    ensures { Inverse }
{}

/// A run that has come to its end has sent what its settings send, and these are read back from that.
pub fn a_finished_run_sent()
    ensures { Ran }
{}
