// What the options of a text come to, and what holds where it says nothing.
#![tactic(auto)]

ghost use Rattle.std.specs.Prelude.{◌≡◌};
ghost use Rattle.text_settings.specs.Settings.{default_settings};

// The code of the flow unit, TRIALS, ACCURACY, DAMPLIMIT, FLOWCHANGE, DEMAND MULTIPLIER, whether DEMAND MODEL is PDA,
// MINIMUM PRESSURE and REQUIRED PRESSURE, all in the text's units.
#[derive(Clone, Copy)]
pub struct Settings {
    pub unit: usize,
    pub trials: usize,
    pub accuracy: f64,
    pub damping: f64,
    pub change: f64,
    pub multiplier: f64,
    pub bends: bool,
    pub minimum: f64,
    pub required: f64,
}

// What holds where a text says nothing.
pub fn default_settings() -> Settings
    ensures { result ≡ default_settings }
{
    Settings {
        unit: 1,
        trials: 200,
        accuracy: 0.001,
        damping: 0.0,
        change: 0.0,
        multiplier: 1.0,
        bends: false,
        minimum: 0.0,
        required: 0.1,
    }
}
