// What histories keep, as facts that callers can cite: laws, whose functions do nothing.
ghost use Rattle.driver_history.specs.Laws.{AdvanceLasts, RowsLast, IdleIsAdvances, IdleSettles};

/// Judging the next week after an advance is judging it on the whole appended line: the old history, the driven week
/// and the next one. Nothing before the last weekly rest, and nothing of an open run beyond 20,160 minutes, changes a
/// verdict.
pub fn advance_lasts()
    ensures { AdvanceLasts }
{}

/// Judging a week after the history that rows say is judging it after the rows' own minutes: joining and holding change no
/// verdict.
pub fn rows_last()
    ensures { RowsLast }
{}

/// Idle by n weeks is n advances by an empty line, and by 0 weeks the history itself.
pub fn idle_is_advances()
    ensures { IdleIsAdvances }
{}

/// More than sixteen idle weeks leave what sixteen leave.
pub fn idle_settles()
    ensures { IdleSettles }
{}
