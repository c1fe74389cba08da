//! The markup of pages, and the fixed parts of samples.

// What begins and ends each page.

pub(crate) const HEAD: &str = "\
<!DOCTYPE html>
<html lang=\"en\">
<head>
<meta charset=\"utf-8\">
<meta http-equiv=\"refresh\" content=\"5\">
<meta name=\"viewport\" content=\"width=device-width\">
<title>Filgwesha</title>
<style>
:root { color-scheme: light }
body { font: 15px/1.45 system-ui, sans-serif; color: #1c2430; background: #fafbfc; margin: 2rem auto; max-width: 75rem; padding: 0 1.5rem }
h1 { font-size: 1.6rem; margin: 0 0 1rem }
h2 { font-size: 1.1rem; margin: 2.2rem 0 .6rem; color: #33415c }
a { color: #0b5cad }
.hint { color: #5a6678; margin: 0 0 .8rem }
.facts { display: flex; flex-wrap: wrap; gap: .8rem; margin: 0 }
.facts div { background: #fff; border: 1px solid #dde3ea; border-radius: 6px; padding: .5rem .9rem }
dt { color: #5a6678; font-size: .8rem }
dd { margin: 0; font-size: 1.15rem; font-variant-numeric: tabular-nums }
.wide { overflow-x: auto }
table { border-collapse: collapse; background: #fff; border: 1px solid #dde3ea }
th, td { text-align: left; vertical-align: top; padding: .35rem .8rem; border-bottom: 1px solid #e8edf2 }
th { color: #5a6678; font-weight: 600; font-size: .85rem; background: #f3f6f9; white-space: nowrap }
.n { text-align: right; font-variant-numeric: tabular-nums }
.off { color: #9a5b00 }
pre { margin: 0; font: 13px/1.4 ui-monospace, monospace; white-space: pre-wrap; max-width: 34rem }
svg { background: #fff; border: 1px solid #dde3ea }
svg text { font: 13px ui-monospace, monospace; fill: #1c2430 }
.rule { fill: #eef4fb; stroke: #4a6fa5 }
.cycle { fill: #fdecea; stroke: #c0392b }
.inactive { stroke-dasharray: 4 3; fill: #f3f3f3 }
svg .word { fill: #c0392b; font-size: 11px }
path { fill: none }
.may { stroke: #33415c; stroke-width: 1.4 }
.loop { stroke: #c0392b; stroke-width: 1.8 }
.order { stroke: #7d8da3; stroke-width: 1.2; stroke-dasharray: 5 4 }
</style>
</head>
<body>
";

pub(crate) const FOOT: &str = "\
</body>
</html>
";

// What stands between parts.

pub(crate) const BLANK: &str = " ";

pub(crate) const COMMA: &str = ", ";

pub(crate) const NEW_LINE: &str = "\n";

// Tables.

pub(crate) const ROW: &str = "<tr><td>";

pub(crate) const CELL: &str = "</td><td>";

pub(crate) const NUMBER_CELL: &str = "</td><td class=\"n\">";

pub(crate) const ROW_END: &str = "</td></tr>\n";

pub(crate) const TABLE_END: &str = "\
</tbody>
</table></div>
";

// The page of a server.

pub(crate) const HOST_TITLE: &str = "\
<h1>Filgwesha</h1>
<dl class=\"facts\">
<div><dt>version</dt><dd>";

pub(crate) const FACT_UPTIME: &str = "</dd></div>\n<div><dt>up</dt><dd>";

pub(crate) const DAYS: &str = " d ";

pub(crate) const HOURS: &str = " h ";

pub(crate) const MINUTES: &str = " min ";

pub(crate) const SECONDS: &str = " s";

pub(crate) const FACT_MEMORY: &str = "</dd></div>\n<div><dt>memory</dt><dd>";

pub(crate) const BYTES: &str = " B";

pub(crate) const KILOBYTES: &str = " KB";

pub(crate) const MEGABYTES: &str = " MB";

pub(crate) const GIGABYTES: &str = " GB";

pub(crate) const FACT_TENANTS: &str = "</dd></div>\n<div><dt>tenants at most</dt><dd>";

pub(crate) const FACT_CELLS: &str = "</dd></div>\n<div><dt>cells</dt><dd>";

pub(crate) const FACT_BOUND: &str = "</dd></div>\n<div><dt>considerations at most</dt><dd>";

pub(crate) const FACTS_END: &str = "\
</dd></div>
</dl>
";

pub(crate) const TENANTS_HEAD: &str = "\
<h2>Tenants</h2>
<p class=\"hint\">Those of which a session was ever opened. <a href=\"/metrics\">The same for Prometheus</a>.</p>
<div class=\"wide\"><table>
<thead><tr><th>tenant</th><th class=\"n\">steps</th><th class=\"n\">room in the trail</th><th class=\"n\">memory</th><th class=\"n\">tables</th><th class=\"n\">rows</th><th class=\"n\">rules</th><th class=\"n\">sessions open</th><th class=\"n\">in a transaction</th><th class=\"n\">changes in the log</th><th></th></tr></thead>
<tbody>
";

pub(crate) const TENANT_LINK: &str = "<tr><td><a href=\"/tenants/";

pub(crate) const LINK_TEXT: &str = "\">";

pub(crate) const LINK_END: &str = "</a>";

// The page of a tenant.

pub(crate) const TENANT_TITLE: &str = "<p><a href=\"/\">all tenants</a></p>\n<h1>Tenant ";

pub(crate) const FACT_STEPS: &str = "\
</h1>
<dl class=\"facts\">
<div><dt>steps</dt><dd>";

pub(crate) const FACT_ROOM: &str = "</dd></div>\n<div><dt>room in the trail</dt><dd>";

pub(crate) const FACT_BYTES: &str = "</dd></div>\n<div><dt>bytes of memory</dt><dd>";

pub(crate) const FACT_ROWS: &str = "</dd></div>\n<div><dt>rows</dt><dd>";

pub(crate) const FACT_OPEN: &str = "</dd></div>\n<div><dt>sessions open</dt><dd>";

pub(crate) const FACT_ACTIVE: &str = "</dd></div>\n<div><dt>in a transaction</dt><dd>";

pub(crate) const FACT_CHANGES: &str = "</dd></div>\n<div><dt>changes in the log</dt><dd>";

pub(crate) const FACT_VOLUME: &str = "</dd></div>\n<div><dt>volume</dt><dd>";

pub(crate) const FACT_RENEWED: &str = "</dd></div>\n<div><dt>renewed</dt><dd>";

pub(crate) const TABLES_HEAD: &str = "\
<h2>Tables</h2>
<div class=\"wide\"><table>
<thead><tr><th>table</th><th>columns</th><th class=\"n\">rows</th></tr></thead>
<tbody>
";

pub(crate) const INT_TYPE: &str = " int<br>";

pub(crate) const TEXT_TYPE: &str = " text<br>";

pub(crate) const RULESETS_HEAD: &str = "\
<h2>Rulesets</h2>
<div class=\"wide\"><table>
<thead><tr><th>ruleset</th><th>rules</th></tr></thead>
<tbody>
";

pub(crate) const SESSIONS_HEAD: &str = "\
<h2>Sessions</h2>
<div class=\"wide\"><table>
<thead><tr><th>session</th><th>state</th><th class=\"n\">last line</th></tr></thead>
<tbody>
";

pub(crate) const CLOSED_CELL: &str = "</td><td class=\"hint\">closed";

pub(crate) const OPEN_CELL: &str = "</td><td>open";

pub(crate) const TRANSACTION_CELL: &str = "</td><td>in a transaction";

pub(crate) const AGO: &str = " s ago";

// The rules of a tenant.

pub(crate) const RULES_HEAD: &str = "\
<h2>Rules</h2>
<p class=\"hint\">In order of creation.</p>
<div class=\"wide\"><table>
<thead><tr><th>rule</th><th>on</th><th>when</th><th>state</th><th>may trigger</th><th>precedes</th><th>made by</th></tr></thead>
<tbody>
";

pub(crate) const INSERTED: &str = "inserted";

pub(crate) const DELETED: &str = "deleted";

pub(crate) const UPDATED: &str = "updated";

pub(crate) const UPDATED_OF: &str = "updated(";

pub(crate) const UPDATED_END: &str = ")";

pub(crate) const ACTIVE_CELL: &str = "</td><td>active";

pub(crate) const INACTIVE_CELL: &str = "</td><td class=\"off\">inactive";

pub(crate) const LINES_BEGIN: &str = "</td><td><pre>";

pub(crate) const LINES_END: &str = "</pre></td></tr>\n";

// The picture of the rules.

pub(crate) const PICTURE_HEAD: &str = "\
<h2>The picture of the rules</h2>
<p class=\"hint\">A solid arrow: the actions of a rule may trigger another one. A dashed arrow: a rule precedes another one. Red: on a cycle, where the bound on considerations may be met.</p>
";

pub(crate) const SVG_WIDTH: &str = "\
<div class=\"wide\"><svg xmlns=\"http://www.w3.org/2000/svg\" role=\"img\" aria-label=\"the rules\" width=\"";

pub(crate) const SVG_HEIGHT: &str = "\" height=\"";

pub(crate) const SVG_BOX: &str = "\" viewBox=\"0 0 ";

pub(crate) const SVG_HEAD: &str = "\
\">
<defs>
<marker id=\"may\" viewBox=\"0 0 8 8\" refX=\"8\" refY=\"4\" markerWidth=\"8\" markerHeight=\"8\" orient=\"auto\"><path d=\"M0 0 L8 4 L0 8 Z\" style=\"fill:#33415c\"/></marker>
<marker id=\"loop\" viewBox=\"0 0 8 8\" refX=\"8\" refY=\"4\" markerWidth=\"8\" markerHeight=\"8\" orient=\"auto\"><path d=\"M0 0 L8 4 L0 8 Z\" style=\"fill:#c0392b\"/></marker>
<marker id=\"order\" viewBox=\"0 0 8 8\" refX=\"8\" refY=\"4\" markerWidth=\"8\" markerHeight=\"8\" orient=\"auto\"><path d=\"M0 0 L8 4 L0 8 Z\" style=\"fill:#7d8da3\"/></marker>
</defs>
";

pub(crate) const ARROW: &str = "<path class=\"may\" marker-end=\"url(#may)\" d=\"M";

pub(crate) const CYCLE_ARROW: &str = "<path class=\"loop\" marker-end=\"url(#loop)\" d=\"M";

pub(crate) const ORDER_ARROW: &str = "<path class=\"order\" marker-end=\"url(#order)\" d=\"M";

pub(crate) const CURVE_BY: &str = " C";

pub(crate) const ARROW_END: &str = "\"/>\n";

pub(crate) const RULE_BOX: &str = "<rect rx=\"6\" class=\"rule\" x=\"";

pub(crate) const CYCLE_BOX: &str = "<rect rx=\"6\" class=\"cycle\" x=\"";

pub(crate) const INACTIVE_BOX: &str = "<rect rx=\"6\" class=\"rule inactive\" x=\"";

pub(crate) const INACTIVE_CYCLE_BOX: &str = "<rect rx=\"6\" class=\"cycle inactive\" x=\"";

pub(crate) const BOX_TOP: &str = "\" y=\"";

pub(crate) const BOX_WIDTH: &str = "\" width=\"";

pub(crate) const BOX_HEIGHT: &str = "\" height=\"";

pub(crate) const NAME_AT: &str = "\"/>\n<text x=\"";

pub(crate) const TEXT_TOP: &str = "\" y=\"";

pub(crate) const TEXT_BEGIN: &str = "\">";

pub(crate) const TEXT_END: &str = "</text>\n";

pub(crate) const WORD_AT: &str = "<text class=\"word\" x=\"";

pub(crate) const CYCLE_WORD: &str = "\">on a cycle</text>\n";

pub(crate) const SVG_END: &str = "</svg></div>\n";

pub(crate) const LEFT_OUT: &str = "<p class=\"hint\">";

pub(crate) const LEFT_OUT_END: &str = " arrows more aren&#39;t drawn; the table names them.</p>\n";

// Samples of Prometheus.

pub(crate) const VERSION_SAMPLE: &str = "\
# HELP filgwesha_build_info The version of the program.
# TYPE filgwesha_build_info gauge
filgwesha_build_info{version=\"";

pub(crate) const VERSION_END: &str = "\"} 1";

pub(crate) const UPTIME_SAMPLE: &str = "\n\
# HELP filgwesha_uptime_seconds Seconds since the server began to listen.
# TYPE filgwesha_uptime_seconds gauge
filgwesha_uptime_seconds ";

pub(crate) const MEMORY_SAMPLE: &str = "\n\
# HELP process_resident_memory_bytes Memory that the process has.
# TYPE process_resident_memory_bytes gauge
process_resident_memory_bytes ";

pub(crate) const TENANTS_SAMPLE: &str = "\n\
# HELP filgwesha_tenants Tenants that the server hosts.
# TYPE filgwesha_tenants gauge
filgwesha_tenants ";

pub(crate) const CELLS_SAMPLE: &str = "\n\
# HELP filgwesha_cells Groups of tenants behind one lock.
# TYPE filgwesha_cells gauge
filgwesha_cells ";

pub(crate) const BOUND_SAMPLE: &str = "\n\
# HELP filgwesha_considerations_limit The most rules that are considered at one assertion point.
# TYPE filgwesha_considerations_limit gauge
filgwesha_considerations_limit ";

pub(crate) const SAMPLE_END: &str = "\"} ";

pub(crate) const STEPS_FAMILY: &str = "\
# HELP filgwesha_tenant_steps_total Steps that the sessions of a tenant made, in all volumes of its life.
# TYPE filgwesha_tenant_steps_total counter
";

pub(crate) const STEPS_SAMPLE: &str = "filgwesha_tenant_steps_total{tenant=\"";

pub(crate) const ROOM_FAMILY: &str = "\
# HELP filgwesha_tenant_trail_room Steps for which its trail has room still.
# TYPE filgwesha_tenant_trail_room gauge
";

pub(crate) const ROOM_SAMPLE: &str = "filgwesha_tenant_trail_room{tenant=\"";

pub(crate) const BYTES_FAMILY: &str = "\
# HELP filgwesha_tenant_bytes Bytes of its trail, its rows, its open transactions and the texts of its rules, as its share of memory counts them.
# TYPE filgwesha_tenant_bytes gauge
";

pub(crate) const BYTES_SAMPLE: &str = "filgwesha_tenant_bytes{tenant=\"";

pub(crate) const TABLES_FAMILY: &str = "\
# HELP filgwesha_tenant_tables Its tables.
# TYPE filgwesha_tenant_tables gauge
";

pub(crate) const TABLES_SAMPLE: &str = "filgwesha_tenant_tables{tenant=\"";

pub(crate) const ROWS_FAMILY: &str = "\
# HELP filgwesha_tenant_rows Rows of its tables, with the changes of open transactions.
# TYPE filgwesha_tenant_rows gauge
";

pub(crate) const ROWS_SAMPLE: &str = "filgwesha_tenant_rows{tenant=\"";

pub(crate) const RULES_FAMILY: &str = "\
# HELP filgwesha_tenant_rules Its rules.
# TYPE filgwesha_tenant_rules gauge
";

pub(crate) const RULES_SAMPLE: &str = "filgwesha_tenant_rules{tenant=\"";

pub(crate) const OPEN_FAMILY: &str = "\
# HELP filgwesha_tenant_sessions_open Sessions that are open.
# TYPE filgwesha_tenant_sessions_open gauge
";

pub(crate) const OPEN_SAMPLE: &str = "filgwesha_tenant_sessions_open{tenant=\"";

pub(crate) const ACTIVE_FAMILY: &str = "\
# HELP filgwesha_tenant_sessions_in_transaction Sessions that have a transaction.
# TYPE filgwesha_tenant_sessions_in_transaction gauge
";

pub(crate) const ACTIVE_SAMPLE: &str = "filgwesha_tenant_sessions_in_transaction{tenant=\"";

pub(crate) const CHANGES_FAMILY: &str = "\
# HELP filgwesha_tenant_log_changes Changes of its open transactions in the log.
# TYPE filgwesha_tenant_log_changes gauge
";

pub(crate) const CHANGES_SAMPLE: &str = "filgwesha_tenant_log_changes{tenant=\"";

pub(crate) const VOLUME_FAMILY: &str = "\
# HELP filgwesha_tenant_volume Volumes of its life that ended before its trail.
# TYPE filgwesha_tenant_volume gauge
";

pub(crate) const VOLUME_SAMPLE: &str = "filgwesha_tenant_volume{tenant=\"";

pub(crate) const VOLUME_AGE_FAMILY: &str = "\
# HELP filgwesha_tenant_volume_age_seconds Seconds since a renewal began its trail; there is none before the first.
# TYPE filgwesha_tenant_volume_age_seconds gauge
";

pub(crate) const VOLUME_AGE_SAMPLE: &str = "filgwesha_tenant_volume_age_seconds{tenant=\"";

pub(crate) const TURNED_AWAY_FAMILY: &str = "\
# HELP filgwesha_tenant_connections_turned_away_total Connections that got no session of it since the server began.
# TYPE filgwesha_tenant_connections_turned_away_total counter
";

pub(crate) const TURNED_AWAY_SAMPLE: &str =
    "filgwesha_tenant_connections_turned_away_total{tenant=\"";

// What a server counts.

pub(crate) const FACT_LINES: &str = "</dd></div>\n<div><dt>lines</dt><dd>";

pub(crate) const FACT_CONSIDERATIONS: &str = "</dd></div>\n<div><dt>considerations</dt><dd>";

pub(crate) const FACT_ROLLBACKS: &str = "</dd></div>\n<div><dt>rollbacks</dt><dd>";

pub(crate) const FACT_REFUSALS: &str = "</dd></div>\n<div><dt>refusals</dt><dd>";

pub(crate) const FACT_RENEWALS: &str = "</dd></div>\n<div><dt>renewals</dt><dd>";

pub(crate) const OLD_AGE: &str = "</td><td class=\"off\">";

pub(crate) const OLD_AGE_END: &str = " s old";

pub(crate) const WORKERS_HEAD: &str = "\
<h2>Workers</h2>
<div class=\"wide\"><table>
<thead><tr><th>worker</th><th class=\"n\">connections</th><th class=\"n\">connections so far</th><th class=\"n\">lines</th><th class=\"n\">seconds busy</th></tr></thead>
<tbody>
";

pub(crate) const DOOR_CELL: &str = "<tr><td>door";

pub(crate) const CAUSES_HEAD: &str = "\
<h2>Rollbacks</h2>
<div class=\"wide\"><table>
<thead><tr><th>by</th><th class=\"n\">rollbacks</th></tr></thead>
<tbody>
";

pub(crate) const REFUSALS_HEAD: &str = "\
<h2>Refusals</h2>
<div class=\"wide\"><table>
<thead><tr><th>number</th><th>name</th><th class=\"n\">refusals</th></tr></thead>
<tbody>
";

pub(crate) const SLOWEST_HEAD: &str = "\
<h2>Slowest lines so far</h2>
<div class=\"wide\"><table>
<thead><tr><th>tenant</th><th>session</th><th class=\"n\">seconds</th><th>line</th></tr></thead>
<tbody>
";

pub(crate) const RUNNING_HEAD: &str = "\
<h2>Running for more than a second</h2>
<div class=\"wide\"><table>
<thead><tr><th>tenant</th><th>session</th><th class=\"n\">seconds</th><th class=\"n\">considerations</th><th>rule</th><th>line</th></tr></thead>
<tbody>
";

pub(crate) const PRE_CELL: &str = "</td><td><pre>";

pub(crate) const PRE_ROW_END: &str = "</pre></td></tr>\n";

pub(crate) const POINT: &str = ".";

pub(crate) const OLD_PAGE: &str = "<p class=\"off\">The tenant is busy: this is what it was ";

pub(crate) const OLD_PAGE_END: &str = " s ago.</p>\n";

pub(crate) const CONSIDERATIONS_SAMPLE: &str = "\n\
# HELP filgwesha_considerations_total Rules that were considered.
# TYPE filgwesha_considerations_total counter
filgwesha_considerations_total ";

pub(crate) const RENEWALS_SAMPLE: &str = "\n\
# HELP filgwesha_renewals_total Renewals of tenants, each of which ended a volume of a trail and began the next one.
# TYPE filgwesha_renewals_total counter
filgwesha_renewals_total ";

pub(crate) const RENEWALS_FAILED_SAMPLE: &str = "\n\
# HELP filgwesha_renewals_failed_total Renewals that were tried and could not be made.
# TYPE filgwesha_renewals_failed_total counter
filgwesha_renewals_failed_total ";

pub(crate) const MEMORY_LIMIT_SAMPLE: &str = "\n\
# HELP filgwesha_tenant_memory_limit_bytes The most bytes that a tenant may take, as its share of memory counts them.
# TYPE filgwesha_tenant_memory_limit_bytes gauge
filgwesha_tenant_memory_limit_bytes ";

pub(crate) const JOURNAL_COMMITS_SAMPLE: &str = "\n\
# HELP filgwesha_journal_commits_total Commits of the journal.
# TYPE filgwesha_journal_commits_total counter
filgwesha_journal_commits_total ";

pub(crate) const JOURNAL_SECONDS_SAMPLE: &str = "\n\
# HELP filgwesha_journal_commit_seconds_total Seconds that workers waited for commits of the journal, with their syncs.
# TYPE filgwesha_journal_commit_seconds_total counter
filgwesha_journal_commit_seconds_total ";

pub(crate) const JOURNAL_AGE_SAMPLE: &str = "\n\
# HELP filgwesha_journal_age_seconds Seconds since the last commit of the journal, or since the server began.
# TYPE filgwesha_journal_age_seconds gauge
filgwesha_journal_age_seconds ";

pub(crate) const JOURNAL_ROOM_SAMPLE: &str = "\n\
# HELP filgwesha_journal_lacks_room 1 where the newest commit of the journal found no room on the disk, else 0.
# TYPE filgwesha_journal_lacks_room gauge
filgwesha_journal_lacks_room ";

pub(crate) const ROLLBACKS_FAMILY: &str = "\
# HELP filgwesha_rollbacks_total Transactions that were rolled back, by what did it.
# TYPE filgwesha_rollbacks_total counter
";

pub(crate) const ROLLBACKS_SAMPLE: &str = "filgwesha_rollbacks_total{cause=\"";

pub(crate) const REFUSALS_FAMILY: &str = "\
# HELP filgwesha_refusals_total Lines that were refused, by the number of the refusal.
# TYPE filgwesha_refusals_total counter
";

pub(crate) const REFUSALS_SAMPLE: &str = "filgwesha_refusals_total{number=\"";

pub(crate) const NAME_LABEL: &str = "\",name=\"";

pub(crate) const WORKER_TAKEN_FAMILY: &str = "\
# HELP filgwesha_worker_connections_total Connections that a worker has taken; the door has those that open no session.
# TYPE filgwesha_worker_connections_total counter
";

pub(crate) const WORKER_TAKEN_SAMPLE: &str = "filgwesha_worker_connections_total{worker=\"";

pub(crate) const WORKER_OPEN_FAMILY: &str = "\
# HELP filgwesha_worker_connections_open Connections that it has.
# TYPE filgwesha_worker_connections_open gauge
";

pub(crate) const WORKER_OPEN_SAMPLE: &str = "filgwesha_worker_connections_open{worker=\"";

pub(crate) const WORKER_LINES_FAMILY: &str = "\
# HELP filgwesha_worker_lines_total Lines of sessions that it has answered.
# TYPE filgwesha_worker_lines_total counter
";

pub(crate) const WORKER_LINES_SAMPLE: &str = "filgwesha_worker_lines_total{worker=\"";

pub(crate) const WORKER_BUSY_FAMILY: &str = "\
# HELP filgwesha_worker_busy_seconds_total Time in which it did not wait for clients.
# TYPE filgwesha_worker_busy_seconds_total counter
";

pub(crate) const WORKER_BUSY_SAMPLE: &str = "filgwesha_worker_busy_seconds_total{worker=\"";

pub(crate) const DOOR: &str = "door";

pub(crate) const TIMES_FAMILY: &str = "\
# HELP filgwesha_step_seconds How long lines take, from the end of the one before on a busy connection.
# TYPE filgwesha_step_seconds histogram
";

pub(crate) const TIMES_BUCKET: &str = "filgwesha_step_seconds_bucket{le=\"";

pub(crate) const TIMES_SUM: &str = "filgwesha_step_seconds_sum ";

pub(crate) const TIMES_COUNT: &str = "filgwesha_step_seconds_count ";

pub(crate) const OLD_FAMILY: &str = "\
# HELP filgwesha_tenant_numbers_age_seconds Seconds since its numbers were taken; 0 unless it was busy.
# TYPE filgwesha_tenant_numbers_age_seconds gauge
";

pub(crate) const OLD_SAMPLE: &str = "filgwesha_tenant_numbers_age_seconds{tenant=\"";
