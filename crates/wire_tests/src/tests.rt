mod framers;
mod http;
mod session;
mod words;
