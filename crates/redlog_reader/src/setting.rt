ghost use Rattle.std.specs.Prelude.{◌≡◌, map, bytes_eq};
ghost use Rattle.std.specs.Char.{to_ascii_lowercase};
ghost use Rattle.language_meaning.specs.Grammar.{setting_of};

use language_meaning::Setting;

/// The context that a name names, in any letter case.
#[tactic(auto, unfolding(language_meaning::specs::Grammar::setting_of))]
pub fn setting_of(name: &[u8]) -> Option<Setting>
    ensures { result ≡ setting_of name.now }
{
    if spells(name, "ofsf") || spells(name, "r") || spells(name, "reals") {
        return Some(Setting::Ofsf);
    }
    if spells(name, "pasf") || spells(name, "z") || spells(name, "integers") {
        return Some(Setting::Pasf);
    }
    None
}

/// Whether the name is this word, in any letter case.
fn spells(name: &[u8], word: &str) -> bool
    ensures { result ≡ bytes_eq (map to_ascii_lowercase name.now) (map to_ascii_lowercase word.now) }
{
    name.eq_ignore_ascii_case(word.as_bytes())
}
