// Laws of card texts. Each function does nothing: its contract is the law.
ghost use Rattle.cardreader.specs.CardForms.{CardTextAcceptedExactly, CardsHaveDifferentTexts};
ghost use Rattle.cardreader.specs.TextLaws.{CleanedTextSaysTheSame, OtherRecordsStay, RefusedLineStandsInTheText};

// Notes, blanks and tabs say nothing.
pub fn cleaned_text_says_the_same()
    ensures { CleanedTextSaysTheSame }
{}

// The line that a refusal names is in the text and has bytes.
pub fn refused_line_stands_in_the_text()
    ensures { RefusedLineStandsInTheText }
{}

// An accepted text writes the counted records only.
pub fn other_records_stay()
    ensures { OtherRecordsStay }
{}

// In tables that are long enough, a text is accepted exactly if its cleaned lines are those of a card that keeps the rules;
// the counted records are that card's, and the others are as they were.
pub fn card_text_accepted_exactly()
    ensures { CardTextAcceptedExactly }
{}

// No two cards share a text.
pub fn cards_have_different_texts()
    ensures { CardsHaveDifferentTexts }
{}
