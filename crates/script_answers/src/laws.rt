//! Laws of the definitions, carried by functions that do nothing.

ghost use Rattle.script_answers.specs.Scripts.{ScriptLimitsAgree};

/// The limits of the grammar of scripts are those of the archive.
pub fn script_limits_agree()
    ensures { ScriptLimitsAgree }
{}
