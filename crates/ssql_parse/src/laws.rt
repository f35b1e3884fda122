//! What is true of every text and every condition.

ghost use Rattle.ssql_parse.specs.Laws as law;

/// A text has one answer: a script, or one refusal. Want of memory may come in place of either.
pub fn one_answer()
    ensures script { law.OneScript }
    ensures either { law.ScriptOrRefusal }
    ensures refusal { law.OneRefusal }
{}

/// The depth that is found piece by piece is the depth by cases on the grammar.
pub fn depth_goes_by_cases()
    ensures { law.DepthGoesByCases }
{}

/// What is printed of a script spells its statements.
pub fn printed_is_read()
    ensures { law.PrintedIsRead }
{}
