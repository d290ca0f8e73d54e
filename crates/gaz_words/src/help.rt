//! What help says of the program and of each command.

pub(crate) const ABOUT: &str = "A hub for street and property gazetteers";

pub(crate) const PLAY: &str =
    "Answers HTTP requests on standard input, over a store in memory [default]";

pub(crate) const INIT: &str = "Makes a store";

pub(crate) const SUBMIT: &str = "Submits a change file";

pub(crate) const STATUS: &str = "Says how far a custodian's files are judged";

pub(crate) const LINE: &str = "Prints the address line of a property";

pub(crate) const EXTRACT: &str = "Prints a custodian's gazetteer after a volume";

pub(crate) const SERVE: &str = "Answers HTTP requests on 127.0.0.1, over a store";

pub(crate) const EXTEND: &str = "Gives a store a register that grew";

pub(crate) const MIGRATE: &str = "Brings a store of schema 1 up to date";

pub(crate) const PLAY_EXAMPLE: &str = "Example: gazhub play < requests.http

Prints: the replies, of a hub of the sample register, to 100,000 requests at most
Exit status: 0 all were answered, 2 usage, 3 fault";

pub(crate) const INIT_EXAMPLE: &str = "Example: gazhub init --store hub.db --register register.toml

Prints: ready
Exit status: 0 made, 2 usage, 3 fault";

pub(crate) const SUBMIT_EXAMPLE: &str =
    "Example: gazhub submit --store hub.db --register register.toml 1001 1 streets.csv

Prints what became of the file:
  new applied                     it was received now, and all its changes stand
  new rejected record 3 rule 21   record 3 (the header is 1) breaks rule 21; nothing of it stands
  new held wants 1001/2           it waits for volume 2 of custodian 1001
  repeat applied                  the same file was received before
  taken DIGEST                    another file was, with this SHA-256
  refused 11                      custodian unknown (12: no volume; 13: too large; 16: profile)
Exit status: 0 applied, 1 any other of these, 2 usage, 3 fault";

pub(crate) const STATUS_EXAMPLE: &str =
    "Example: gazhub status --store hub.db --register register.toml 1001

Prints: custodian 1001 judged 2 held 1 wants 1001/3
  refused 11                      custodian unknown
Exit status: 0 known, 1 refused, 2 usage, 3 fault";

pub(crate) const LINE_EXAMPLE: &str =
    "Example: gazhub line --store hub.db --register register.toml 42

Prints: Flat 2, 12A-14 High Street, Arden, AR1 2DN
  none                            nobody has the property, or it has no line now: no approved
                                  address, or no name of its street in the address's language
Exit status: 0 printed, 1 none, 2 usage, 3 fault";

pub(crate) const EXTRACT_EXAMPLE: &str =
    "Example: gazhub extract --store hub.db --register register.toml 1001 2

Prints: the extract, in CSV
  none                            the volume isn't reached
  refused 11                      custodian unknown (12: no volume)
Exit status: 0 printed, 1 none or refused, 2 usage, 3 fault";

pub(crate) const SERVE_EXAMPLE: &str =
    "Example: gazhub serve --store hub.db --register register.toml --port 8080 --connections 100

Prints: listening 127.0.0.1:8080
Answers connections one after the other, and ends behind the last of them.
Exit status: 0 all were answered, 2 usage, 3 fault";

pub(crate) const EXTEND_EXAMPLE: &str =
    "Example: gazhub extend --store hub.db --register register.toml --grown grown.toml

Prints: extended
  refused 61                      a custodian is no longer there
  refused 62                      a custodian has other blocks
Exit status: 0 extended, 1 refused, 2 usage, 3 fault";

pub(crate) const MIGRATE_EXAMPLE: &str =
    "Example: gazhub migrate --store hub.db --register register.toml

Prints: migrated
  current                         the store is up to date and stays as it is
Exit status: 0 migrated or current, 2 usage, 3 fault";
