//! Tests of whose the ends of a connection are, by tables as Linux writes them.

use script_host::sockets::{is_own_client, is_own_server, owner_of};

/// User 1000 listens at port 8080 and has accepted a connection from port 40000, which user 1000 made; one from port
/// 40001, which user 1001 made, isn't accepted yet. User 1001 listens at port 8081, and a connection of user 1000's
/// waits there.
const TABLE: &str = "\
  sl  local_address rem_address   st tx_queue rx_queue tr tm->when retrnsmt   uid  timeout inode
   0: 0100007F:1F90 00000000:0000 0A 00000000:00000001 00:00000000 00000000  1000        0 501 1 0000000000000000 100 0 0 10 0
   1: 00000000:1F91 00000000:0000 0A 00000000:00000001 00:00000000 00000000  1001        0 502 1 0000000000000000 100 0 0 10 0
   2: 0100007F:9C40 0100007F:1F90 01 00000000:00000000 00:00000000 00000000  1000        0 503 1 0000000000000000 20 4 0 10 -1
   3: 0100007F:1F90 0100007F:9C40 01 00000000:00000000 00:00000000 00000000  1000        0 504 1 0000000000000000 20 4 0 10 -1
   4: 0100007F:9C41 0100007F:1F90 01 00000000:00000000 00:00000000 00000000  1001        0 505 1 0000000000000000 20 4 0 10 -1
   5: 0100007F:1F90 0100007F:9C41 01 00000000:00000000 00:00000000 00000000     0        0 0 1 0000000000000000 20 4 0 10 -1
   6: 0100007F:9C42 0100007F:1F91 01 00000000:00000000 00:00000000 00000000  1000        0 506 1 0000000000000000 20 4 0 10 -1
   7: 0100007F:1F91 0100007F:9C42 01 00000000:00000000 00:00000000 00000000     0        0 0 1 0000000000000000 20 4 0 10 -1
";

/// User 1000 has accepted the connection of user 1001 by now, and made another one, which waits. A third one, of user
/// 1000, is closed.
const LATER: &str = "\
   0: 0100007F:1F90 00000000:0000 0A 00000000:00000001 00:00000000 00000000  1000        0 501 1 0000000000000000 100 0 0 10 0
   1: 0100007F:9C41 0100007F:1F90 01 00000000:00000000 00:00000000 00000000  1001        0 505 1 0000000000000000 20 4 0 10 -1
   2: 0100007F:1F90 0100007F:9C41 01 00000000:00000000 00:00000000 00000000  1000        0 507 1 0000000000000000 20 4 0 10 -1
   3: 0100007F:9C43 0100007F:1F90 01 00000000:00000000 00:00000000 00000000  1000        0 508 1 0000000000000000 20 4 0 10 -1
   4: 0100007F:1F90 0100007F:9C43 03 00000000:00000000 00:00000000 00000000     0        0 0 1 0000000000000000 20 4 0 10 -1
   5: 0100007F:9C44 0100007F:1F90 05 00000000:00000000 00:00000000 00000000     0        0 0 1 0000000000000000 20 4 0 10 -1
   6: 0100007F:1F90 0100007F:9C44 08 00000000:00000000 00:00000000 00000000  1000        0 509 1 0000000000000000 20 4 0 10 -1
";

/// User 1000 made a connection to a server that listens at all addresses of both families, and accepted it.
const BOTH: &str = "\
   0: 0100007F:9C40 0100007F:1F90 01 00000000:00000000 00:00000000 00000000  1000        0 503 1 0000000000000000 20 4 0 10 -1
   0: 00000000000000000000000000000000:1F90 00000000000000000000000000000000:0000 0A 00000000:00000000 00:00000000 00000000  1000        0 501 1 0000000000000000 100 0 0 10 0
   1: 0000000000000000FFFF00000100007F:1F90 0000000000000000FFFF00000100007F:9C40 01 00000000:00000000 00:00000000 00000000  1000        0 504 1 0000000000000000 20 4 0 10 -1
";

#[test]
fn an_end_is_its_users(rt: HostRuntime) {
    assert!(rt; owner_of(TABLE, 40_000, 8080) == Some(1000));
    assert!(rt; owner_of(TABLE, 40_001, 8080) == Some(1001));
    // Nobody has accepted it, there is none, and it is closed.
    assert!(rt; owner_of(TABLE, 8080, 40_001).is_none());
    assert!(rt; owner_of(TABLE, 8080, 40_002).is_none());
    assert!(rt; owner_of(LATER, 40_004, 8080).is_none());
    assert!(rt; owner_of("", 8080, 40_000).is_none());
}

#[test]
fn somebody_elses_connection_is_refused(rt: HostRuntime) {
    assert!(rt; is_own_client(TABLE, 8080, 40_000));
    assert!(rt; !is_own_client(LATER, 8080, 40_001));
    assert!(rt; !is_own_client(LATER, 8080, 40_004));
}

#[test]
fn somebody_elses_server_is_refused(rt: HostRuntime) {
    assert!(rt; is_own_server(TABLE, 40_000, 8080));
    assert!(rt; is_own_server(LATER, 40_003, 8080));
    assert!(rt; is_own_server(BOTH, 40_000, 8080));
    assert!(rt; !is_own_server(TABLE, 40_001, 8080));
    assert!(rt; !is_own_server(TABLE, 40_002, 8081));
    assert!(rt; !is_own_server(TABLE, 40_002, 8080));
}
