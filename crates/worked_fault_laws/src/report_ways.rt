//! Laws that each way is needed in which a report has a fault: there is a text that has it by this way alone. By
//! `report_texts::one_report_or_one_fault` these have no other fault, and are no reports.

ghost use Rattle.std.specs.Prelude.{codes, decimal, ◌++◌};
ghost use Rattle.std.specs.List.{flat_map, range_with_len};
ghost use Rattle.report_texts.specs.Stages.{IsReportFault};
ghost use Rattle.report_texts.specs.declared.error.ReportFault.TheVariants.{BadLine, Short};

/// Each way in which a line can't stand in the history: it has no form, makes a node in another slot than the next,
/// is an `open` line with another than `pending` before such lines, or a graph's line and behind no `show`.
pub fn each_line_of_a_history_is_needed()
    ensures no_form { IsReportFault (codes "report 2\nclose x\n") (BadLine 2) }
    ensures slot { IsReportFault (codes "report 2\nmake 1 a sink()\n") (BadLine 2) }
    ensures slot_again { IsReportFault (codes "report 2\nmake 0 a sink()\nmake 0 b sink()\n") (BadLine 3) }
    ensures open_first { IsReportFault (codes "report 2\nopen 0 1\n") (BadLine 2) }
    ensures open_behind_another { IsReportFault (codes "report 2\npending 1\nclose 0\nopen 0 1\n") (BadLine 4) }
    ensures open_behind_show { IsReportFault (codes "report 2\npending 1\nshow\nopen 0 1\n") (BadLine 4) }
    ensures graph_first { IsReportFault (codes "report 2\nnode a sink()\n") (BadLine 2) }
    ensures graph_behind_another { IsReportFault (codes "report 2\nshow\nclose 0\nnode a sink()\n") (BadLine 4) }
{}

/// Each way in which lines behind `show` show no graph: their paths don't rise, a node's path or argument is none, they
/// aren't the text of the graph that they tell, or a cycle is in it. Where the text ends among them it is short if each
/// has a form of a graph's line, and else the `show` line is bad.
pub fn each_fault_of_a_graph_is_needed()
    ensures falls { IsReportFault (codes "report 2\nshow\nnode b sink()\nnode a sink()\nstop\n") (BadLine 2) }
    ensures same_path { IsReportFault (codes "report 2\nshow\nnode a sink()\nnode a sink()\nstop\n") (BadLine 2) }
    ensures no_path { IsReportFault (codes "report 2\nshow\nnode  sink()\nstop\n") (BadLine 2) }
    ensures argument { IsReportFault (codes "report 2\nshow\nnode a sink(1)\nstop\n") (BadLine 2) }
    ensures no_argument { IsReportFault (codes "report 2\nshow\nnode a source()\nport a.out -\nstop\n") (BadLine 2) }
    ensures big_argument { IsReportFault (codes "report 2\nshow\nnode a source(16777216)\nport a.out -\nstop\n") (BadLine 2) }
    ensures no_port { IsReportFault (codes "report 2\nshow\nnode a source(1)\nstop\n") (BadLine 2) }
    ensures no_target { IsReportFault (codes "report 2\nshow\nnode a source(1)\nport a.out b.in\nstop\n") (BadLine 2) }
    ensures cycle { IsReportFault (codes "report 2\nshow\nnode a map(1)\nport a.next a.in\nstop\n") (BadLine 2) }
    ensures cut_off { IsReportFault (codes "report 2\nshow\nnode a source(1)\n") Short }
    ensures cut_off_node { IsReportFault (codes "report 2\nshow\nnode a\n") (BadLine 2) }
    ensures cut_off_port { IsReportFault (codes "report 2\nshow\nnode a source(1)\nport a.out\n") (BadLine 2) }
{}

/// Each way in which the log of a node can't be read: its first line isn't that of the node, an event has no form, or
/// its last line has none; or the text ends before either line.
pub fn each_line_of_a_log_is_needed()
    ensures no_head { IsReportFault (codes "report 2\nmake 0 a sink()\n") Short }
    ensures no_log { IsReportFault (codes "report 2\nmake 0 a sink()\nstatus 0\n") (BadLine 3) }
    ensures one_log { IsReportFault (codes "report 2\nmake 0 a sink()\nmake 1 b sink()\nlog 0 a\nstate\nstatus 0\n") (BadLine 6) }
    ensures slot { IsReportFault (codes "report 2\nmake 0 a sink()\nlog 1 a\n") (BadLine 3) }
    ensures path { IsReportFault (codes "report 2\nmake 0 a sink()\nlog 0 b\n") (BadLine 3) }
    ensures path_in_version_1 { IsReportFault (codes "report 1\nmake 0 a sink()\nlog 0 a\n") (BadLine 3) }
    ensures event { IsReportFault (codes "report 2\nmake 0 a sink()\nlog 0 a\nbegin 1 1\n") (BadLine 4) }
    ensures no_last { IsReportFault (codes "report 2\nmake 0 a sink()\nlog 0 a\n") Short }
    ensures state { IsReportFault (codes "report 2\nmake 0 a sink()\nlog 0 a\nstate x\n") (BadLine 4) }
    ensures moved { IsReportFault (codes "report 2\nmake 0 a sink()\nlog 0 a\nmoved x\n") (BadLine 4) }
{}

/// Each way in which a text doesn't end as a report does: an unfinished slot that is none, or a second one, a status
/// that is none, or too big, and more behind it; or the text ends before the status.
pub fn each_end_of_a_report_is_needed()
    ensures unfinished { IsReportFault (codes "report 2\nunfinished x\n") (BadLine 2) }
    ensures second_unfinished { IsReportFault (codes "report 2\nunfinished 0\nunfinished 0\n") (BadLine 3) }
    ensures no_status { IsReportFault (codes "report 2\nunfinished 0\n") Short }
    ensures status { IsReportFault (codes "report 2\nstatus x\n") (BadLine 2) }
    ensures big_status { IsReportFault (codes "report 2\nstatus 256\n") (BadLine 2) }
    ensures line_behind { IsReportFault (codes "report 2\nstatus 0\n\n") (BadLine 3) }
    ensures bytes_behind { IsReportFault (codes "report 2\nstatus 0\n?") (BadLine 3) }
{}

/// Each word of a history's line that isn't what its form asks for, each that is missing, and each that is too many: a
/// number has no leading zero, and is below 2^32, but for the count of a `run` line, which is below 2^64.
pub fn each_word_of_a_history_is_needed()
    ensures verb { IsReportFault (codes "report 2\nclosed 0\n") (BadLine 2) }
    ensures no_word { IsReportFault (codes "report 2\n\n") (BadLine 2) }
    ensures leading_zero { IsReportFault (codes "report 2\nclose 01\n") (BadLine 2) }
    ensures big { IsReportFault (codes "report 2\nclose 4294967296\n") (BadLine 2) }
    ensures no_number { IsReportFault (codes "report 2\nclose\n") (BadLine 2) }
    ensures second_number { IsReportFault (codes "report 2\nclose 0 0\n") (BadLine 2) }
    ensures first_of_two { IsReportFault (codes "report 2\ndrained x 0\n") (BadLine 2) }
    ensures second_of_two { IsReportFault (codes "report 2\ndrained 0 x\n") (BadLine 2) }
    ensures third_of_two { IsReportFault (codes "report 2\ndrained 0 0 0\n") (BadLine 2) }
    ensures first_of_three { IsReportFault (codes "report 2\nlink x 0 0\n") (BadLine 2) }
    ensures second_of_three { IsReportFault (codes "report 2\nlink 0 x 0\n") (BadLine 2) }
    ensures third_of_three { IsReportFault (codes "report 2\nlink 0 0 x\n") (BadLine 2) }
    ensures fourth_of_three { IsReportFault (codes "report 2\nlink 0 0 0 0\n") (BadLine 2) }
    ensures run { IsReportFault (codes "report 2\nrun 4294967296 0\n") (BadLine 2) }
    ensures run_count { IsReportFault (codes "report 2\nrun 0 18446744073709551616\n") (BadLine 2) }
    ensures bare_and_more { IsReportFault (codes "report 2\ncommit 0\n") (BadLine 2) }
{}

/// The same of the lines that have a component or a node: `start`, `change` and `make`.
pub fn each_word_of_a_component_is_needed()
    ensures no_parentheses { IsReportFault (codes "report 2\nstart A\n") (BadLine 2) }
    ensures unclosed { IsReportFault (codes "report 2\nstart A(\n") (BadLine 2) }
    ensures behind_parentheses { IsReportFault (codes "report 2\nstart A()x\n") (BadLine 2) }
    ensures no_name { IsReportFault (codes "report 2\nstart ()\n") (BadLine 2) }
    ensures argument { IsReportFault (codes "report 2\nstart A(x)\n") (BadLine 2) }
    ensures second_argument { IsReportFault (codes "report 2\nstart A(0,)\n") (BadLine 2) }
    ensures negative_zero { IsReportFault (codes "report 2\nstart A(-0)\n") (BadLine 2) }
    ensures big_argument { IsReportFault (codes "report 2\nstart A(2147483648)\n") (BadLine 2) }
    ensures small_argument { IsReportFault (codes "report 2\nstart A(-2147483649)\n") (BadLine 2) }
    ensures start_and_more { IsReportFault (codes "report 2\nstart A() B\n") (BadLine 2) }
    ensures change { IsReportFault (codes "report 2\nchange A\n") (BadLine 2) }
    ensures slot { IsReportFault (codes "report 2\nmake x a sink()\n") (BadLine 2) }
    ensures path { IsReportFault (codes "report 2\nmake 0  sink()\n") (BadLine 2) }
    ensures kind { IsReportFault (codes "report 2\nmake 0 a A()\n") (BadLine 2) }
    ensures made_argument { IsReportFault (codes "report 2\nmake 0 a source(x)\n") (BadLine 2) }
    ensures from { IsReportFault (codes "report 2\nmake 0 a sink() to 1\n") (BadLine 2) }
    ensures source { IsReportFault (codes "report 2\nmake 0 a sink() from x\n") (BadLine 2) }
    ensures source_and_more { IsReportFault (codes "report 2\nmake 0 a sink() from 0 0\n") (BadLine 2) }
{}

/// Each slot and each port in the history of a report of version 1 that is beyond the limit.
pub fn each_limit_of_a_history_is_needed()
    ensures make { IsReportFault (codes "report 1\n" ++ flat_map (λ slot. codes "make " ++ decimal slot ++ codes " a sink()\n") (range_with_len 0 256)) (BadLine 257) }
    ensures source { IsReportFault (codes "report 1\nmake 0 a sink() from 255\n") (BadLine 2) }
    ensures link_port { IsReportFault (codes "report 1\nlink 1024 0 0\n") (BadLine 2) }
    ensures link_slot { IsReportFault (codes "report 1\nlink 0 255 0\n") (BadLine 2) }
    ensures unlink { IsReportFault (codes "report 1\nunlink 1024\n") (BadLine 2) }
    ensures remove { IsReportFault (codes "report 1\nremove 255\n") (BadLine 2) }
    ensures close { IsReportFault (codes "report 1\nclose 1024\n") (BadLine 2) }
    ensures reopen { IsReportFault (codes "report 1\nreopen 1024\n") (BadLine 2) }
    ensures drained { IsReportFault (codes "report 1\ndrained 1024 0\n") (BadLine 2) }
    ensures root { IsReportFault (codes "report 1\npending 1\nopen 1024 0\n") (BadLine 3) }
    ensures unfinished { IsReportFault (codes "report 1\nunfinished 255\n") (BadLine 2) }
{}

/// Each port and the slot in a log of a report of version 1 that is beyond the limit.
pub fn each_limit_of_a_log_is_needed()
    ensures begin { IsReportFault (codes "report 1\nmake 0 a sink()\nlog 0\nbegin 1024 1 1\n") (BadLine 4) }
    ensures call { IsReportFault (codes "report 1\nmake 0 a sink()\nlog 0\ncall 1024 1 1\n") (BadLine 4) }
    ensures take { IsReportFault (codes "report 1\nmake 0 a sink()\nlog 0\ntake 1024 1 1\n") (BadLine 4) }
    ensures more { IsReportFault (codes "report 1\nmake 0 a sink()\nlog 0\nmore 1024 1 1\n") (BadLine 4) }
    ensures ask { IsReportFault (codes "report 1\nmake 0 a sink()\nlog 0\nask 1024 1 1\n") (BadLine 4) }
    ensures hear { IsReportFault (codes "report 1\nmake 0 a sink()\nlog 0\nhear 1024 1 1\n") (BadLine 4) }
    ensures give { IsReportFault (codes "report 1\nmake 0 a sink()\nlog 0\ngive 1024 1 1\n") (BadLine 4) }
    ensures ended { IsReportFault (codes "report 1\nmake 0 a sink()\nlog 0\nend 1024 1 1\n") (BadLine 4) }
    ensures miss { IsReportFault (codes "report 1\nmake 0 a sink()\nlog 0\nmiss 1024\n") (BadLine 4) }
    ensures moved { IsReportFault (codes "report 1\nmake 0 a sink()\nlog 0\nmoved 255\n") (BadLine 4) }
{}
