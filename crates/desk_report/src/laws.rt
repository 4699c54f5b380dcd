// Laws on reports and exports, whose functions do nothing.
ghost use Rattle.desk_report.specs.Laws.{ReportsTellFindings, BodiesTellAll, ReportsTellAll, ExportsTellAll};

/// The law that outcomes with one body of a report found the same cost, bound and state, by the same number of nodes.
pub fn reports_tell_findings()
    ensures { ReportsTellFindings }
{}

/// The law that outcomes of cases of one week with one report were planned after the same histories, have the same plan, duty by
/// duty, found the same cost, bound, state and number of nodes, and are kept as drafts of one revision; and so with one body, but
/// for the revision, which it doesn't tell.
pub fn reports_tell_all()
    ensures body { BodiesTellAll }
    ensures report { ReportsTellAll }
{}

/// The law that outcomes of a case with one export have the same plan, duty by duty, and the same tree, node by node.
pub fn exports_tell_all()
    ensures { ExportsTellAll }
{}
