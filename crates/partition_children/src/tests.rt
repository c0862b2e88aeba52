mod children;
mod hostile;
mod images;
mod probes;
