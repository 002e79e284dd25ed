//! What the help of the program says.

/// The version of the program and its libraries.
pub(crate) const VERSION: &str = "0.3.0";

pub(crate) const OTP_ABOUT: &str =
    "Supervisors of Erlang/OTP by rules that are proved: try them, and run trees";

pub(crate) const OTP_STATUSES: &str =
    "Example: otp try examples/storm.toml examples/storm_survived.script\nStatuses: 0 done, 1 a file, its tree or its starts, 2 the words, 3 a line of\nsim, the input or 2^62 events, 4 output or memory, 5 a line of a script, 6 what\na line expects, 7 a run that ran out of turns, or of time to stop, 8 nothing of\na script or a log was played.\n`otp check FILE` explains what is wrong in a tree file; the formats stand in\ndocs/FORMATS.md. More help: otp help file (the keys of a tree file), script,\nlines (of sim), logs (of replay), otp (what OTP does beyond this).";

pub(crate) const TRY_ABOUT: &str = "Says what a tree does where a script says what goes wrong";

pub(crate) const TRY_EXAMPLE: &str =
    "Example: otp try examples/storm.toml examples/storm_survived.script\nA script has lines as `at 1s crash db`, `+500ms fail db`, `hang db`, `stop`,\n`every 2s 20 times crash db`, `expect up db`.\nStatuses: 0 all lines were played, 1 a file or its tree, 2 the words, 3 the\ninput or 2^62 events, 4 output or memory, 5 a line can't be read or could do\nnothing, 6 what a line expects is not so, 8 no line says what happens.\nAll lines: otp help script. Formats: docs/FORMATS.md, under Scripts.";

pub(crate) const RUN_ABOUT: &str = "Runs a tree on threads: each child does what its start says";

pub(crate) const RUN_EXAMPLE: &str =
    "Example: otp run examples/nested.toml --schedulers 1\nWords of a start: steady, once, crash, crash_once, ignore, refuse, stubborn,\nbridge (`otp check --run FILE` tells which are unknown).\nEach thread takes its turns, then the root is asked to stop, and each takes as\nmany again; with --for it is asked after that time, and threads sleep.\nStatuses: 0 the tree was run, and has ended, 1 the file, its tree or a start\nthat is no such word, 2 the words, 4 output, memory or a tree that can't be\nclosed, 7 the turns, or --grace, ran out before the tree had ended.\nFormats: docs/FORMATS.md, under Runs.";

pub(crate) const FILE_ALONE: &str = "The tree file, in TOML";

pub(crate) const FILE_OR_INPUT: &str = "The tree file, in TOML; - is standard input";

pub(crate) const CHECK_ABOUT: &str = "Says all that is wrong in tree files, and where";

pub(crate) const CHECK_EXAMPLE: &str =
    "Example: otp check examples/storm.toml examples/shop.toml\nA line a fault: FILE:LINE: number, place, what was read, and what to write.\n--lint looks for a stop that a restart waits for and that may take longer than\nthe period, intensity 0 over permanent children, `infinity` of a worker, under\none_for_one more children of one start than the intensity, a significant child\nwhose tree never ends, ids that look alike; else it adds no line.\nStatuses: 0 each file says a tree, 1 one says none or can't be read, or with\n--lint there is a remark, 2 the words, 4 output or memory.\nKeys: otp help file. Formats: docs/FORMATS.md, under Checks and pictures.";

pub(crate) const TREE_ABOUT: &str = "Draws a tree as text";

pub(crate) const TREE_EXAMPLE: &str =
    "Example: otp tree examples/storm.toml\nStatuses: 0 the tree was drawn, 1 the file says no tree (`otp check FILE` says\nwhy) or can't be read, 2 the words, 4 output or memory.\nKeys: otp help file. Formats: docs/FORMATS.md, under Checks and pictures.";

pub(crate) const LIMITS_ABOUT: &str =
    "Says what each child's failure costs: which crashes are survived";

pub(crate) const LIMITS_EXAMPLE: &str =
    "Example: otp limits examples/storm.toml\nburst: so many crashes at once are survived; interval: crashes so far apart are\nsurvived, and with a millisecond less not; stops, starts: so many processes one\ncrash stops and starts, with all below them; root, where supervisors stand\nbelow: so many at once the root survives.\nOTP counts restarts in whole seconds, and may need a longer interval, which\nstands below the table. With --json each of `rows` has `children`, alike ones\ntogether, and these numbers by their names.\nStatuses: 0 the table was written, 1 the file says no tree (`otp check FILE`\nsays why) or can't be read, 2 the words, 3 2^62 events, 4 output or memory.\nFormats: docs/FORMATS.md, under Limits.";

pub(crate) const CHILD_HELP: &str =
    "The child with this name alone, as pool/worker, with\nall that it stops";

pub(crate) const TABLE_HELP: &str =
    "The children of the supervisor with this name alone;\nroot is the root";

pub(crate) const EACH_HELP: &str = "Plays each child, and takes none together that are alike";

pub(crate) const SHUTDOWN_ABOUT: &str =
    "How long the stop of a tree may take, and who takes how much of it";

pub(crate) const SHUTDOWN_EXAMPLE: &str =
    "Example: otp shutdown examples/nested.toml\nChildren are told to stop one after another, the last started first; each has\nuntil its deadline. A child with `infinity` may take for ever. A start that is\nunder way isn't counted, though the stop waits for its answer.\nStatuses: 0 the times were written, 1 the file says no tree (`otp check FILE`\nsays why) or can't be read, 2 the words, 4 output or memory, 6 it may take\nlonger than --within says.\nFormats: docs/FORMATS.md, under The longest stop.";

pub(crate) const LONGEST_HELP: &str =
    "How long it may take at the most, as 500ms, 30s\nor 5m: else the status is 6";

pub(crate) const SUGGEST_ABOUT: &str = "Which intensity or period survives crashes of a child";

pub(crate) const SUGGEST_EXAMPLE: &str =
    "Example: otp suggest examples/shop.toml --child db --times 5 --within 2m\nThe least intensity with the period as it is, and the greatest period with the\nintensity as it is: by milliseconds, and by whole seconds, as OTP counts. Of\n--times they say `at once` what is enough whenever the crashes come within that\ntime, as nothing is closer together, and beside it what is where they are evenly\nspread. With --root the whole tree is played, all of them at once: of each\nsupervisor from the child's own up to the root the least intensity with which\nthe root survives, all else as it is; the last line says the least change.\nStatuses: 0 it was written, 1 the file says no tree (`otp check FILE` says why)\nor can't be read, 2 the words, 3 2^62 events, 4 output or memory.\nFormats: docs/FORMATS.md, under Suggestions.";

pub(crate) const WORKER_HELP: &str = "The worker that crashes, as pool/worker";

pub(crate) const EVERY_HELP: &str =
    "The time between its crashes, which never end: 500ms,\n2s, 5m, 1h, or milliseconds";

pub(crate) const TIMES_HELP: &str = "How many crashes there are, 1 to 1000";

pub(crate) const WITHIN_HELP: &str = "The time within which they come, at any moments";

pub(crate) const ROOT_HELP: &str =
    "Which intensity of which supervisor, up to the root, has\nthe root survive them; of --times";

pub(crate) const DIFF_ABOUT: &str =
    "What differs in two tree files, and in what each failure costs";

pub(crate) const DIFF_EXAMPLE: &str =
    "Example: otp diff examples/first.toml examples/shop.toml\nA line for each value of a supervisor or a child that differs; then for each\nchild that is in both, the numbers of `otp limits` that differ.\nStatuses: 0 it was written, 1 a file says no tree (`otp check FILE` says why) or\ncan't be read, 2 the words, 3 2^62 events, 4 output or memory.\nFormats: docs/FORMATS.md, under Differences.";

pub(crate) const OTHER_HELP: &str = "The other tree file; - is standard input";

pub(crate) const REPLAY_ABOUT: &str =
    "What a tree would have done, had happened to it what a log tells";

pub(crate) const REPLAY_EXAMPLE: &str =
    "Example: otp replay examples/shop.toml examples/shop.log\nA line is a time and what happened: 2026-11-26T20:49:00.125Z crash db, or\n12.250 exit pool/a normal. The first line that is played is the time zero.\nStatuses: 0 all such lines were played, 1 a file or its tree, 2 the words, or a\nline whose time can't be, 3 2^62 events, 4 output or memory, 5 a line could do\nnothing, 6 what a line expects (`up db`) is not so, 8 none was played.\nLogs of OTP, Elixir, supervisord, systemd and otp-procs are read as they are.\nAll logs: otp help logs. Formats: docs/FORMATS.md, under Replays.";

pub(crate) const LOG_FILE_HELP: &str = "The log; - is standard input, up to 1 MiB";

pub(crate) const IDS_HELP: &str =
    "A file with a line NAME PATH for each name that a log\nhas for a child";

pub(crate) const STRICT_HELP: &str = "A child that isn't in the tree gives status 5";

pub(crate) const UNMATCHED_HELP: &str = "Lists the lines of the log that weren't played";

pub(crate) const IMPORT_ABOUT: &str =
    "Makes a tree of what Erlang, Elixir, supervisord or systemd says";

pub(crate) const IMPORT_EXAMPLE: &str =
    "Example: escript examples/walk.escript kernel | otp import - > kernel.toml\nFILE is a term, as {ok, {SupFlags, ChildSpecs}}, the file of supervisord, or\nunits as systemctl cat prints them. On standard error stands what has no\ncounterpart: FILE:LINE:COLUMN: what it is. Of supervisord and systemd the tree\nalone says less: what is restarted after status 0, how long that waits, exit\ncodes and the environment stand in what --commands writes, for otp-procs; there\nrestart_after says the first and the longest wait.\nStatuses: 0 it was written, 1 FILE says no tree or can't be read, 2 the words, 4\noutput or memory.\nFormats: docs/FORMATS.md, under Imports; docs/FROM.md says what becomes of what.";

pub(crate) const IMPORTED_HELP: &str =
    "A term of Erlang or Elixir, a file of supervisord, or\nunits of systemd; - is standard input";

pub(crate) const COMMANDS_HELP: &str =
    "Writes what each start runs instead: the file of\ncommands of otp-procs";

pub(crate) const SIM_ABOUT: &str =
    "Plays event lines on a supervisor, and prints each order it gives";

pub(crate) const SIM_EXAMPLE: &str =
    "Example: otp sim examples/three_workers.toml < examples/three_workers.events\nStatuses: 0 all lines were played, 1 the file or its tree, 2 the words, 3 a line\nis refused, the input or 2^62 events, 4 output or memory.\nAll lines: otp help lines. Formats: docs/FORMATS.md, under Lines and Orders.";

pub(crate) const FILES_OR_INPUT: &str = "Tree files, in TOML; - is standard input";

pub(crate) const SCRIPT_HELP: &str =
    "A script, with --tap several; without one, or for -,\nits lines are standard input";

pub(crate) const PROMPT_HELP: &str =
    "Shows how the supervisor stands before each line, and\ngoes on after one that is refused; so it is at a terminal";

pub(crate) const TIMELINE_HELP: &str =
    "Draws the run: a column for each line of the script, a\nrow for each child";

pub(crate) const TAP_HELP: &str =
    "Says of each SCRIPT alone whether all was so as it\nexpects, in TAP (status 6 if one fails)";

pub(crate) const QUIET_HELP: &str =
    "Tells ends of supervisors, what is not as expected,\nand the verdict alone";

pub(crate) const CLOCK_HELP: &str =
    "By which clock restarts are counted: milliseconds, or\nseconds, as OTP does";

pub(crate) const WIDTH_HELP: &str = "How many columns a picture has, 1 to 1000";

pub(crate) const TURNS_HELP: &str =
    "How many turns each thread takes before the stop, and\nas many after it: 1 to 10000000";

pub(crate) const COUNTS_HELP: &str =
    "Says first what each supervisor counts of its children\njust before the stop";

pub(crate) const PICTURE_HELP: &str = "Draws the tree on standard error, as it stood at the end";

pub(crate) const WHY_HELP: &str = "Says on standard error how each supervisor ended";

pub(crate) const FOR_HELP: &str =
    "Serves the tree until its root has ended, or for so\nlong, as 500ms, 2s or 5m; then stops it";

pub(crate) const GRACE_HELP: &str =
    "With --for: how long the stop may take before the tree\nis left as it is (status 7)";

pub(crate) const LOG_HELP: &str =
    "With --for: a line on standard error for each start and\neach end of a process";

pub(crate) const STARTS_HELP: &str = "Looks at starts too: which of them `otp run` doesn't know";

pub(crate) const REMARKS_HELP: &str =
    "Remarks on lawful trees: what may not be meant, as an\nintensity that is too small (status 1)";

pub(crate) const ALL_HELP: &str = "Tells of all faults of a file, and not of the first 20 alone";

pub(crate) const JSON_HELP: &str = "Writes an object of JSON for each file, a line each";

pub(crate) const PAGE_HELP: &str =
    "Writes a page of HTML to this file instead, which is\nnew or a page; - is standard output";

pub(crate) const OBJECT_HELP: &str = "Writes one object of JSON instead, on one line";
