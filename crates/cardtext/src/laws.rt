// Laws of cleaning and of lines. Each function does nothing: its contract is the law.
ghost use Rattle.cardtext.specs.Cleaning.{CleanedLineIsWhatStandsBeforeItsNote};
ghost use Rattle.cardtext.specs.Cleaning.{CleanedTextIsNoLonger, CleanedTextIsPlain};
ghost use Rattle.cardtext.specs.Cleaning.{CleaningKeepsLineEnds, CleaningTwiceIsCleaningOnce};
ghost use Rattle.cardtext.specs.Lines.{LineOfCleanedIsCleanedLine, LinesOfCleanedAreCleanedLines};
ghost use Rattle.cardtext.specs.Lines.{LinesMakeTheText, NoLineHasALineEnd};

pub fn cleaned_text_is_no_longer()
    ensures { CleanedTextIsNoLonger }
{}

// What is left has no blank, tab or "#".
pub fn cleaned_text_is_plain()
    ensures { CleanedTextIsPlain }
{}

pub fn cleaning_keeps_line_ends()
    ensures { CleaningKeepsLineEnds }
{}

pub fn cleaning_twice_is_cleaning_once()
    ensures { CleaningTwiceIsCleaningOnce }
{}

// Of one line the bytes before its first "#" are kept, but for blanks and tabs.
pub fn cleaned_line_is_what_stands_before_its_note()
    ensures { CleanedLineIsWhatStandsBeforeItsNote }
{}

pub fn no_line_has_a_line_end()
    ensures { NoLineHasALineEnd }
{}

// The lines with an end behind each make the text again.
pub fn lines_make_the_text()
    ensures { LinesMakeTheText }
{}

// Each line of the cleaned text is the cleaned line of the same number.
pub fn line_of_cleaned_is_cleaned_line()
    ensures { LineOfCleanedIsCleanedLine }
{}

// If the last line has its end too, there are as many lines as before.
pub fn lines_of_cleaned_are_cleaned_lines()
    ensures { LinesOfCleanedAreCleanedLines }
{}
