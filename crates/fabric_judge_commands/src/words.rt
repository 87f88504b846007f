//! The words for traffics.

ghost use Rattle.std.specs.Prelude.{◌≡◌};
ghost use Rattle.fabric_judge_commands.specs.Words.{traffic_word};

use fabric_model::traffic::Traffic;

/// Returns the word for `traffic`.
pub fn word_of(traffic: Traffic) -> &'static str
    ensures { result.now ≡ traffic_word traffic }
{
    match traffic {
        Traffic::Hosts => "hosts",
        Traffic::Lids => "lids",
        Traffic::Managed => "managed",
        Traffic::All => "all",
        Traffic::Rows => "rows",
    }
}
