//! What the definitions give for examples.

ghost use Rattle.std.specs.Prelude.{◌≡◌, Ok};
ghost use Rattle.script_grammar.specs.Texts.{reading_of};
ghost use Rattle.script_grammar.specs.Canonical.{canonical_text};
ghost use Rattle.script_grammar.specs.ReadTexts.{AreRead, scripts, every_line_text, every_line, every_line_printed, nested_text, nested_tags, tags_read};
ghost use Rattle.script_grammar.specs.FaultsByText.{AreFaulty, smallest, common, cut_off, too_large, of_rules};
ghost use Rattle.script_grammar.specs.FaultsByLine.{HaveFaults, before_outside, channel_rows, outside_rows, before_inside, channel_call_rows, job_rows, other_rows, before_clause, select_rows};

/// Texts that are read, among them one with every line of the language, which is also printed.
pub fn these_texts_are_scripts()
    ensures scripts { AreRead scripts }
    ensures read { reading_of every_line_text ≡ Ok every_line }
    ensures printed { canonical_text every_line ≡ every_line_printed }
    ensures tags { tags_read (reading_of nested_text) ≡ nested_tags }
{}

/// Texts with a fault.
pub fn these_texts_have_these_faults()
    ensures smallest { AreFaulty smallest }
    ensures common { AreFaulty common }
    ensures cut_off { AreFaulty cut_off }
    ensures too_large { AreFaulty too_large }
    ensures of_rules { AreFaulty of_rules }
{}

/// Every line of the language with a wrong word at each of its places, a missing word and a word too many.
pub fn each_line_has_these_faults()
    ensures channels { HaveFaults before_outside 4 channel_rows }
    ensures outside { HaveFaults before_outside 4 outside_rows }
    ensures channel_calls { HaveFaults before_inside 7 channel_call_rows }
    ensures jobs { HaveFaults before_inside 7 job_rows }
    ensures others { HaveFaults before_inside 7 other_rows }
    ensures clauses { HaveFaults before_clause 6 select_rows }
{}
