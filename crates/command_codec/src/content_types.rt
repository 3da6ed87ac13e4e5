// The content types of the frames that are commands (docs/FORMATS.md, "Commands").

pub(crate) const HELLO: u32 = 0;

pub(crate) const CREATE_IDENTITY: u32 = 1000;

pub(crate) const UPDATE_IDENTITY: u32 = 1001;

pub(crate) const DELETE_IDENTITY: u32 = 1002;

pub(crate) const CREATE_SERVICE: u32 = 1010;

pub(crate) const UPDATE_SERVICE: u32 = 1011;

pub(crate) const DELETE_SERVICE: u32 = 1012;

pub(crate) const CREATE_ROUTER: u32 = 1020;

pub(crate) const UPDATE_ROUTER: u32 = 1021;

pub(crate) const DELETE_ROUTER: u32 = 1022;

pub(crate) const CONNECT_ROUTER: u32 = 1023;

pub(crate) const DISCONNECT_ROUTER: u32 = 1024;

pub(crate) const CREATE_SERVICE_POLICY: u32 = 1100;

pub(crate) const UPDATE_SERVICE_POLICY: u32 = 1101;

pub(crate) const DELETE_SERVICE_POLICY: u32 = 1102;

pub(crate) const CREATE_EDGE_ROUTER_POLICY: u32 = 1110;

pub(crate) const UPDATE_EDGE_ROUTER_POLICY: u32 = 1111;

pub(crate) const DELETE_EDGE_ROUTER_POLICY: u32 = 1112;

pub(crate) const CREATE_SERVICE_EDGE_ROUTER_POLICY: u32 = 1120;

pub(crate) const UPDATE_SERVICE_EDGE_ROUTER_POLICY: u32 = 1121;

pub(crate) const DELETE_SERVICE_EDGE_ROUTER_POLICY: u32 = 1122;

pub(crate) const CREATE_LINK: u32 = 1200;

pub(crate) const SET_LINK_COST: u32 = 1201;

pub(crate) const REPORT_LATENCY: u32 = 1202;

pub(crate) const REPORT_STATE: u32 = 1203;

pub(crate) const DELETE_LINK: u32 = 1204;

pub(crate) const SET_LEAST_ROUTER_COST: u32 = 1210;

pub(crate) const CREATE_TERMINATOR: u32 = 1300;

pub(crate) const UPDATE_TERMINATOR: u32 = 1301;

pub(crate) const DELETE_TERMINATOR: u32 = 1302;

pub(crate) const CREATE_CIRCUIT: u32 = 1400;

pub(crate) const DELETE_CIRCUIT: u32 = 1401;

pub(crate) const EXPLAIN: u32 = 1402;

pub(crate) const VERIFY_ROUTE: u32 = 1403;

pub(crate) const SHOW_GRANTS: u32 = 1500;

pub(crate) const LIST_SERVICES: u32 = 1501;

pub(crate) const SHOW_COUNTS: u32 = 1502;

pub(crate) const SHOW_CIRCUIT: u32 = 1503;

pub(crate) const COMPACT: u32 = 1510;

pub(crate) const SET_INTERCEPT: u32 = 1600;

pub(crate) const CLEAR_INTERCEPT: u32 = 1601;

pub(crate) const PICK: u32 = 1610;

pub(crate) const LIST_CLASHES: u32 = 1611;
