//! How the daemon is asked.

/// The usage line, without its line feed.
pub const USAGE: &[u8] =
    b"usage: edrd FEED --port P [--workers W] [--every S] [--connections C] [--idle I] [--requests R] [--last]";

/// The end of the usage line, and the lines behind it.
pub const OPTIONS: &[u8] =
    b"\n  --port P         the port of 127.0.0.1, 0 to 65535; 0 lets the system choose one\n  --workers W      connections that are served at once, 1 to 64; else 2\n  --every S        seconds before each further edition is served, 0 to 86400; else 60\n  --connections C  connections that each worker serves, up to 1000000; else 0, no end of them\n  --idle I         seconds that a connection may be idle, 1 to 86400; else 30\n  --requests R     requests that a connection may have, 1 to 1000; else 100\n  --last           serves the last edition of the feed from the start\n  --help           writes these lines, where it stands alone\n  --version        writes the version, where it stands alone\n";
