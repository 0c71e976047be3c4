//! Laws that each way is needed in which a file of events has a fault: there is a text that has it by this way alone.
//! By `change_script::one_file_or_one_fault` these have no other fault, and are no files of events.

ghost use Rattle.std.specs.Prelude.{codes};
ghost use Rattle.change_script.specs.EventFiles.{IsFirstFault};
ghost use Rattle.change_script.specs.declared.error.ScriptError.TheVariants.{BadLine, NumberTooBig, Order};

/// Each place at which a line can't stand: an event before the start, and a start behind it. Behind the start too a
/// line may be bad, or have a number that is too big.
pub fn each_place_of_an_event_is_needed()
    ensures before_start { IsFirstFault (codes "close 1") (Order 1) }
    ensures second_start { IsFirstFault (codes "start A()\nclose 1\nstart A()") (Order 3) }
    ensures bad_behind { IsFirstFault (codes "start A()\n?") (BadLine 2) }
    ensures big_behind { IsFirstFault (codes "start A()\nclose 4294967296") (NumberTooBig 2) }
{}

/// Each word of a line that isn't what its form asks for.
pub fn each_word_of_an_event_is_needed()
    ensures verb { IsFirstFault (codes "closed 1") (BadLine 1) }
    ensures start_name { IsFirstFault (codes "start 1()") (BadLine 1) }
    ensures start_argument { IsFirstFault (codes "start A(x)") (BadLine 1) }
    ensures single { IsFirstFault (codes "close x") (BadLine 1) }
    ensures first { IsFirstFault (codes "begin x 1 1") (BadLine 1) }
    ensures second { IsFirstFault (codes "begin 1 x 1") (BadLine 1) }
    ensures third { IsFirstFault (codes "begin 1 1 x") (BadLine 1) }
    ensures slot { IsFirstFault (codes "make x a sink()") (BadLine 1) }
    ensures path { IsFirstFault (codes "make 0 1 sink()") (BadLine 1) }
    ensures kind { IsFirstFault (codes "make 0 a A()") (BadLine 1) }
    ensures argument { IsFirstFault (codes "make 0 a source(x)") (BadLine 1) }
    ensures source { IsFirstFault (codes "make 0 a sink() from x") (BadLine 1) }
{}

/// Each word that a form lacks, or has too many.
pub fn each_form_of_an_event_is_needed()
    ensures start_without_parentheses { IsFirstFault (codes "start A") (BadLine 1) }
    ensures start_and_more { IsFirstFault (codes "start A() B") (BadLine 1) }
    ensures single_without_number { IsFirstFault (codes "close") (BadLine 1) }
    ensures single_and_more { IsFirstFault (codes "close 1 1") (BadLine 1) }
    ensures triple_without_third { IsFirstFault (codes "begin 1 1") (BadLine 1) }
    ensures triple_and_more { IsFirstFault (codes "begin 1 1 1 1") (BadLine 1) }
    ensures make_without_kind { IsFirstFault (codes "make 0 a") (BadLine 1) }
    ensures make_without_parentheses { IsFirstFault (codes "make 0 a sink") (BadLine 1) }
    ensures make_without_from { IsFirstFault (codes "make 0 a sink() to 1") (BadLine 1) }
    ensures make_and_more { IsFirstFault (codes "make 0 a sink() from 1 1") (BadLine 1) }
{}

/// Each number of a line that is beyond its limit.
pub fn each_number_of_an_event_is_needed()
    ensures start_argument { IsFirstFault (codes "start A(2147483648)") (NumberTooBig 1) }
    ensures start_negative { IsFirstFault (codes "start A(-2147483649)") (NumberTooBig 1) }
    ensures single { IsFirstFault (codes "close 4294967296") (NumberTooBig 1) }
    ensures first { IsFirstFault (codes "begin 4294967296 1 1") (NumberTooBig 1) }
    ensures second { IsFirstFault (codes "begin 1 4294967296 1") (NumberTooBig 1) }
    ensures third { IsFirstFault (codes "begin 1 1 4294967296") (NumberTooBig 1) }
    ensures slot { IsFirstFault (codes "make 4294967296 a sink()") (NumberTooBig 1) }
    ensures path { IsFirstFault (codes "make 0 a[4294967296] sink()") (NumberTooBig 1) }
    ensures argument { IsFirstFault (codes "make 0 a source(4294967296)") (NumberTooBig 1) }
    ensures source { IsFirstFault (codes "make 0 a sink() from 4294967296") (NumberTooBig 1) }
{}
