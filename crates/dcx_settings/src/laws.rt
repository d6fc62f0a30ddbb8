//! Laws above the definitions of `specs/`. There is no code: each clause is a statement about all tokens or all bytes.
ghost use Rattle.std.specs.Prelude.{◌≡◌, ℕ, List};
ghost use Rattle.dcx_settings.specs.Terminal.{Terminal};
ghost use Rattle.dcx_settings.specs.Grammar.{Line};
ghost use Rattle.dcx_settings.specs.Reading.{AreSpelled, IsUnexpected};
ghost use Rattle.dcx_settings.specs.File.{IsRefused, SpellSettings};
ghost use Rattle.dcx_settings.specs.Laws.{ItemsAreFull, SettingsAreOne};
ghost use Rattle.dcx_settings.specs.declared.settings.SettingItem.{SettingItem};
ghost use Rattle.dcx_tokens.specs.declared.fault.ReadFault.{ReadFault};

/// Tokens spell one list of good lines at most, and where they spell one, none of them is unexpected.
pub fn readings()
    ensures one { (tokens : List Terminal) (lines others : List Line) → AreSpelled tokens lines → AreSpelled tokens others → lines ≡ others }
    ensures apart { (tokens rest : List Terminal) (lines : List Line) → AreSpelled tokens lines → IsUnexpected tokens rest → ⊥ }
{}

/// The bytes of a file are refused for one fault at most, and spell no settings then.
pub fn files()
    ensures one { (bytes : List ℕ) (f g : ReadFault) → IsRefused bytes f → IsRefused bytes g → f ≡ g }
    ensures apart { (bytes : List ℕ) (settings : List (List SettingItem)) (f : ReadFault) → SpellSettings bytes settings → IsRefused bytes f → ⊥ }
{}

/// Each value that the bytes of a file spell has a number for each entry of its shape.
pub fn items_are_full()
    ensures { ItemsAreFull }
{}

/// The bytes of a file spell one list of settings at most.
pub fn settings_are_one()
    ensures { SettingsAreOne }
{}
