//! What is explained beside commands: `otp help script` says which lines a script may have, `otp help lines` which lines `sim`
//! takes, `otp help file` which keys a tree file has, `otp help logs` which logs `replay` reads, and `otp help otp` what OTP
//! does beyond this.

/// The lines of a script of `try`. docs/FORMATS.md has what is to be said besides.
pub(crate) const SCRIPT: &str = "\
Lines of a script, for otp try FILE SCRIPT:

crash CHILD [REASON]   its process ends; with error:crash if no reason is given
exit CHILD REASON      its process ends with this reason
fail ID [REASON]       its next start fails; with error:fail if none is given
ignore ID              its next start answers ignore
init ID TIME           each of its starts takes so long from now on
hang CHILD             it doesn't end when it is next asked to
slow CHILD TIME        it ends so long after it is next asked to
stop                   the parent asks the supervisor to shut down
which, count, get ID, restart ID, terminate ID, terminate #P, delete ID,
start ID START RESTART SIGNIFICANT SHUTDOWN TYPE
                       calls of the supervisor
expect up CHILD        the child runs
expect end CHILD       it has no process
expect restarts ID N   it was started again N times
expect up, expect end  the supervisor itself has not ended; it has
at TIME, +TIME         the clock goes there, alone or before other words
every TIME N times ..  as N lines +TIME ..
# TEXT                 says nothing

TIME is a number with ms, s, m or h behind it, as 500ms, 1.5s or 2m. CHILD is an
ID, or a process number as #3. Below the root both have a path, as sub/x; a line
that begins with sub/ and a space is said to that supervisor, as sub/ expect up.
A REASON is normal, shutdown, kill, killed, noproc, shutdown:TEXT or error:TEXT.

Starts and ends take no time, but for init, slow and hang. Where one does, let
the clock go past it, as by at 20s: then a line says how long each child was
down.

Last comes a verdict: whether the root survived, and who gave up. What is
expected and isn't so gives status 6, so a script is a test of a restart policy.
One that expects nothing gives 0 whatever ends. A supervisor that gave up may be
up again: the verdict says so, and expect restarts sub 0 isn't met then.

Example:

  at 1s crash db
  +500ms fail db error:down
  hang web
  expect up db
  every 2s 20 times crash db
  stop
";

/// The lines that `sim` takes. docs/FORMATS.md has what is to be said besides.
pub(crate) const LINES: &str = "\
Lines of standard input, for otp sim FILE < LINES:

at N                   the clock's reading in milliseconds from now on
up P                   the start of process P succeeded
ignore P               it was answered ignore
fail P REASON          it failed
exit P REASON          process P ended
stop                   the parent asks the supervisor to shut down
start                  start_child under simple_one_for_one
start ID START RESTART SIGNIFICANT SHUTDOWN TYPE
                       start_child with this specification
restart ID, delete ID, terminate ID, get ID
                       calls by id; terminate #P under simple_one_for_one
which, count           which_children, count_children

Exactly one space stands between two words, and no other stands before or behind
them; an empty line says nothing. Numbers have no zero in front: P is that of an
order, as 1 of `start db #1`. A REASON is normal, shutdown, kill, killed,
noproc, shutdown:TEXT or error:TEXT. A line has at most 512 bytes.

Example:

  up 1
  at 500
  exit 1 error:down
  up 2
  stop
";

/// The keys of a tree file. docs/FORMATS.md has what is to be said besides.
pub(crate) const FILE: &str = "\
A tree file: a TOML document, whose top table is the root.

Keys of a supervisor, the root's in front of the first [[child]]:

strategy       who is started again where a child ends: one_for_one (default),
               that child alone; one_for_all, all of them; rest_for_one, that
               child and those behind it. With simple_one_for_one there are as
               many children of one kind as calls start
intensity      so many restarts within a period are borne, 0 to 1000 (default
               1); one more ends the supervisor, and all its children with it
period         seconds, 1 to 1000000 (default 5)
auto_shutdown  never (default); any_significant, all_significant: it ends once
               one, or each, of its significant children has ended by itself

Keys of a child, behind a line [[child]]:

id             its name: 1 to 32 of a-z A-Z 0-9 _ - . (has to be there)
start          a name for what starts it (has to be there): the module of OTP's
               {M, F, A}; of otp run a word of `otp help run`
restart        permanent (default): whenever it ends. transient: where it ends
               by an error, and not by normal, shutdown or shutdown:TEXT.
               temporary: never; what stops it for a sibling's restart deletes
               it, too
significant    false (default); true: its end counts for auto_shutdown, which
               then may not be never, nor the child be permanent. The end of a
               transient one counts where it isn't started again
shutdown       how long its stop may take: milliseconds, 0 to 4294967295
               (default 5000), after which it is killed; infinity, as long as it
               takes; brutal_kill, not at all
type           worker (default), supervisor
modules        an array of at most 4 names, or dynamic (default: that of start)
tree           the keys of a supervisor, for a child that is one: the line
               [child.tree], and [[child.tree.child]] for each of its children.
               Its shutdown is infinity

Children start in the order of the file, each once the one before it is up, and
stop the other way round. Words stand in quotes; numbers, true and false don't.
Where a supervisor ends that another has as a child, that is an end of a child.

Example:

  strategy = \"rest_for_one\"
  intensity = 3
  period = 10

  [[child]]
  id = \"db\"
  start = \"steady\"
  shutdown = 10000

  [[child]]
  id = \"pool\"
  start = \"pool\"

  [child.tree]
  strategy = \"one_for_all\"

  [[child.tree.child]]
  id = \"w1\"
  start = \"steady\"
  restart = \"transient\"

`otp check FILE` tells what is wrong in one, `otp import` makes one of what
Erlang, Elixir, supervisord or systemd says.
";

/// The logs that `replay` reads. docs/FORMATS.md has what is to be said besides.
pub(crate) const LOGS: &str = "\
Logs, for otp replay FILE LOG. The first line that reads as one of these decides
which one the log is:

plain lines      a timestamp, and behind it crash CHILD [REASON], exit CHILD
                 REASON, stop, or up CHILD: it is expected to run. A timestamp
                 is an instant, as 2026-11-26T20:49:00.125Z (also with a space
                 for the T, or an offset), or seconds, as 12.250
OTP, Elixir      what Logger writes, as text or as an object of JSON a line:
                 reports of supervisors, child_terminated, start_error, started
supervisord      its log: exited, and the signal that ends it
systemd          journalctl, also with -o short-iso or -o json: a main process
                 that exited, a service that was deactivated
otp-procs        up, fail, exit, stop, also with --json

Other lines are left out; those that look as if they could be played are told,
and why they aren't. --unmatched lists all.

Names. In plain lines a child has its path, as pool/w1. In others it is found by
that or by its id; where it is called otherwise, `--ids IDS` reads a file of
lines NAME PATH: NAME as the log has it, also SUP/NAME with its supervisor's;
PATH as the tree has it, or - to leave it out. An end of a child that isn't in
the tree is left out there; with --strict it gives status 5, as in plain lines.

Times. The first line that is played is time zero, and what is told has the
seconds since then; each played line is told with the log's own time. A time
without an offset is UTC; one that is earlier than the line before is taken as
that line's, and refused in plain lines.

Example:

  2026-11-26T20:49:00.125Z crash db
  2026-11-26T20:49:02Z exit pool/w1 normal
  2026-11-26T20:49:03Z up db
";

/// What OTP does and this doesn't.
pub(crate) const OTP: &str = "\
What Erlang/OTP does beyond this:

start functions     {M, F, A} with arguments: `start` is a name, and what it
                    runs is up to who embeds the core (of otp run: its words)
answers of a start  {ok, Child, Info}; an init that answers ignore or fails
names               registered, global and via; which_children has numbers
distribution        children and calls on other nodes
code change         release handling, code_change, get_callback_module
sys                 get_status, suspend, trace; which_children, count_children
                    and get_childspec are here
hibernation         of supervisors and workers
simple_one_for_one  extra arguments of start_child; get_childspec by pid
reports             progress and supervisor reports; otp run --for 1m --log
                    tells starts and ends
links               between workers; a child that unlinks itself
older forms         tuples of flags and children: otp import reads them

Other than in OTP, a restart is counted by milliseconds (otp try --clock seconds
counts as OTP does), a child with a tree has shutdown infinity, a dynamic child
that is gone is not_found to terminate_child, and one whose restart answers
ignore is removed. A supervisor has at most 256 children, a tree 64 supervisors.
docs/OTP.md has each rule, and where it stands.
";

/// The text of the topic that these words ask for.
pub(crate) fn topic(word: &str) -> Option<&'static str> {
    match word {
        "script" => Some(SCRIPT),
        "lines" => Some(LINES),
        "file" => Some(FILE),
        "logs" => Some(LOGS),
        "otp" => Some(OTP),
        _ => None,
    }
}
