//! What holds of all reports.
ghost use Rattle.office_report.specs.Laws.{EachReportIsOneText};

use history_answers::laws;

/// A report is one text: two reports of one office at one minute are the same.
pub fn a_report_is_one_text()
    ensures { EachReportIsOneText }
{
    laws::each_query_has_one_answer();
}
